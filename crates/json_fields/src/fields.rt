// Whether a name is one of those that are expected.
ghost use Rattle.std.specs.Prelude.{◌≡◌, map};
ghost use Rattle.std.specs.List.{list_any};
ghost use Rattle.std.specs.Str.{bytes_eq};
ghost use Rattle.office_base.specs.Texts.{is_among};

fn any_is(known: &[&str], name: &str) -> bool
    ensures { result ≡ list_any (λ k. bytes_eq name.now k.now) known.now }
{
    known.iter().any(|k| name == *k)
}

pub(crate) fn is_known(known: &[&str], name: &str) -> bool
    ensures { result ≡ is_among (map (λ k. k.now) known.now) name.now }
{
    any_is(known, name)
}
