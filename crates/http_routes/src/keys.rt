// The key that a part of a path spells.
ghost use Rattle.std.specs.Prelude.{◌≡◌, ◌⊎◌, false, IfOk, IfErr, IsErrOf};
ghost use Rattle.office_base.specs.Keys.{IsKey, is_key};
ghost use Rattle.http_routes.specs.Spelled.{key_of};

use office_base::{Key, NameRefusal};
use percent_encoding::percent_decode;
use std::alloc::Global;

/// Reads the key that a part of a path spells: the bytes of the part, percent-decoded.
///
/// Rule: RFC 3986, "Percent-Encoding". A percent sign without two hexadecimal digits after it stays as it is, and so
/// does `+`.
///
/// # Errors
///
/// `BadKey`: the decoded bytes are not 1 to 1,024, or are not UTF-8. `NoMemory`: memory ran out.
pub fn read_key(alloc: Global, part: &[u8]) -> Result<Key, NameRefusal>
    ensures ok { IfOk result (λ key. (key ≡ key_of part.now) × IsKey (key_of part.now)) }
    // Memory for the decoded bytes comes before the test of them.
    ensures bad_key { IsErrOf result NameRefusal.BadKey → is_key (key_of part.now) ≡ false }
    ensures refusal { IfErr result (λ e. (e ≡ NameRefusal.BadKey) ⊎ (e ≡ NameRefusal.NoMemory)) }
{
    let mut bytes = Vec::new(alloc);
    percent_decode(part).append_to(&mut bytes)?;
    Key::read(alloc, &bytes)
}
