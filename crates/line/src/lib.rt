// Lines for the billing desk: what the writer and the reader share.
#![tactic(auto)]

ghost use Rattle.std.specs.Prelude.{◌≡◌};
ghost use Rattle.line.specs.Lines.{is_plain};

// Whether a byte of a tag is written as itself.
#[tactic(auto, unfolding(crate::specs::Lines::is_plain))]
pub fn is_plain(b: u8) -> bool
    ensures { result ≡ is_plain b }
{
    text::is_printable(b) && !matches!(b, b'"' | b',' | b'\\')
}
