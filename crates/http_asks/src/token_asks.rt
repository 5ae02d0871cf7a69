// The token that a request carries.
ghost use Rattle.std.specs.Prelude.{List, length};
ghost use Rattle.httparse.specs.Grammar.{Field};
ghost use Rattle.http_wire.specs.Parts.{IsFound, LiesIn};
ghost use Rattle.office_types.specs.declared.command.Ask.TheVariants as ask;
ghost use Rattle.http_asks.specs.Faults.{IsMeaning};
ghost use Rattle.http_asks.specs.Meaning.{asks, with_fields, with_value};

use crate::bad::{Bad, Fault};
use http_wire::Found;
use office_types::{Ask, Command, Token};
use std::alloc::Global;

// The ask of a command with the value of one field Office-Token.
fn with_value(alloc: Global, value: &[u8], command: Command) -> Result<Ask, Fault>
    ensures { IsMeaning result (with_value value.now command) }
{
    let Ok(read) = Token::read(alloc, value) else {
        drop(command);
        return Err(Fault::NoMemory);
    };
    let Some(token) = read else {
        drop(command);
        return Err(Fault::Bad(Bad::BadToken));
    };
    if !command.takes_token() {
        drop(token);
        drop(command);
        return Err(Fault::Bad(Bad::TokenNotServed));
    }
    Ok(Ask::Once { token, command })
}

// The ask of a command with the fields Office-Token that were found.
fn with_found(alloc: Global, bytes: &[u8], found: Found, command: Command) -> Result<Ask, Fault>
    requires lies { LiesIn (length bytes.now) found }
    ensures { (fields : List Field) → IsFound bytes.now found fields
        → IsMeaning result (with_fields fields (asks (ask.Command command))) }
{
    match found {
        Found::Absent => Ok(Ask::Command(command)),
        Found::Once(value) => with_value(alloc, value.of(bytes), command),
        Found::Repeated => {
            drop(command);
            Err(Fault::Bad(Bad::BadToken))
        }
    }
}

/// The ask with the fields Office-Token that were found. With a query they are ignored.
pub(crate) fn ask_with(alloc: Global, bytes: &[u8], found: Found, ask: Ask) -> Result<Ask, Fault>
    requires lies { LiesIn (length bytes.now) found }
    ensures { (fields : List Field) → IsFound bytes.now found fields
        → IsMeaning result (with_fields fields (asks ask)) }
{
    match ask {
        Ask::Command(command) => with_found(alloc, bytes, found, command),
        other => Ok(other),
    }
}
