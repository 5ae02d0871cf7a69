// The text that is said where memory runs out.
ghost use Rattle.std.specs.Prelude.{◌≡◌};
ghost use Rattle.http_front.specs.Texts.{no_memory_text};

#[tactic(auto, using(crate::proofs::PrintLemmas::no_memory_is))]
pub(crate) fn no_memory() -> &'static [u8]
    ensures { result.now ≡ no_memory_text }
{
    b"HTTP/1.1 500 Internal Server Error\r\ncontent-type: application/json\r\ncontent-length: 33\r\n\r\n\
{\"error\":\"NoMemory\",\"number\":115}"
}
