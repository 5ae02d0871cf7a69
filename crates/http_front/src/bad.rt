// What a session says of a message that has no answer of the office.
use desk_core::DeskFault;

/// Why a message has no answer of the office.
#[derive(Drop)]
pub enum Bad {
    /// The message's own text is refused. It was not asked.
    Message(http_asks::Bad),
    /// It was asked, and the call has no answer.
    Desk(DeskFault),
}
