// Laws of messages, as calls that do nothing.
ghost use Rattle.http_wire.specs.Messages.{MessagesAreUnique, StandsAlone, HasOneRest, StandsBeforeMore};
ghost use Rattle.http_wire.specs.Read.{AnswersTheFirst, RefusesTheFirst, EndsWithNone};

/// States that a stream is one list of messages only.
pub fn messages_unique()
    ensures { MessagesAreUnique }
{}

/// States that the same bytes do not begin with two different things.
pub fn stands_unique()
    ensures { StandsAlone }
{}

/// States that the bytes after a request are determined.
pub fn stands_rest()
    ensures { HasOneRest }
{}

/// States that what some bytes begin with does not depend on what follows, in whatever pieces the stream comes.
pub fn stands_more()
    ensures { StandsBeforeMore }
{}

/// States that successive reads answer the messages of the stream, in order, in whatever pieces it comes.
pub fn reads_messages()
    ensures request { AnswersTheFirst }
    ensures refused { RefusesTheFirst }
    ensures end { EndsWithNone }
{}
