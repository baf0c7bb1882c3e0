ghost use Rattle.std.specs.Prelude.{◌≡◌, ◌<◌, ◌∷◌, length, IsTrue};
ghost use Rattle.std.specs.List.{prefix_len};
ghost use Rattle.std.specs.Str.{IsAscii};
ghost use Rattle.sc_script.specs.Lines.{is_line_part, lines, without_return};

fn is_line_part(byte: u8) -> bool
    ensures { result ≡ is_line_part byte }
{
    byte != b'\n'
}

#[tactic(auto, using(sc_expr::proofs::RunLemmas::front))]
fn line_len(text: &[u8]) -> usize
    ensures { result ≡ prefix_len is_line_part text.now }
{
    text.iter().take_while(|b| is_line_part(**b)).count()
}

/// The first line of a text, without its line feed, and what stands behind that.
#[tactic(auto, using(crate::proofs::AsciiLemmas::parts))]
pub(crate) fn cut_line(text: &[u8]) -> (&[u8], &[u8])
    requires { 0 < length text.now }
    ensures line { lines text.entry.now ≡ result.0.now ∷ lines result.1.now }
    ensures shorter { length result.1.now < length text.entry.now }
    ensures ascii { IsAscii text.entry.now → IsAscii result.0.now × IsAscii result.1.now }
{
    let length = line_len(text);
    if length < text.len() {
        (&text[..length], &text[length + 1..])
    } else {
        (text, &[])
    }
}

/// Whether all bytes of a text are ASCII, and those of its lines with them. That is told of the whole text at once far
/// faster than line by line.
#[tactic(auto, using(crate::proofs::AsciiLemmas::steps))]
pub(crate) fn is_ascii(text: &[u8]) -> bool
    ensures { IsTrue result → IsAscii text.now }
{
    let mut top = 0u8;
    for byte in text {
        if *byte > top {
            top = *byte;
        }
    }
    top < 128
}

/// A line without the carriage return at its end.
pub(crate) fn without_return(line: &[u8]) -> &[u8]
    ensures { result.now ≡ without_return line.now }
{
    if line.ends_with(b"\r") {
        &line[..line.len() - 1]
    } else {
        line
    }
}
