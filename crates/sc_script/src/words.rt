ghost use Rattle.std.specs.Prelude.{◌≡◌};
ghost use Rattle.std.specs.List.{prefix_len};
ghost use Rattle.sc_script.specs.Lines.{is_space, is_word_part, without_spaces, without_last_spaces, trimmed, first_word, behind_word};

fn is_space(byte: u8) -> bool
    ensures { result ≡ is_space byte }
{
    byte == b' '
}

fn is_word_part(byte: u8) -> bool
    ensures { result ≡ is_word_part byte }
{
    !is_space(byte)
}

#[tactic(auto, using(sc_expr::proofs::RunLemmas::front))]
fn spaces_len(text: &[u8]) -> usize
    ensures { result ≡ prefix_len is_space text.now }
{
    text.iter().take_while(|b| is_space(**b)).count()
}

#[tactic(auto, using(sc_expr::proofs::RunLemmas::front))]
fn word_len(text: &[u8]) -> usize
    ensures { result ≡ prefix_len is_word_part text.now }
{
    text.iter().take_while(|b| is_word_part(**b)).count()
}

/// A text without the spaces at its front.
#[tactic(auto, using(sc_expr::proofs::RunLemmas::front))]
fn without_spaces(text: &[u8]) -> &[u8]
    ensures { result.now ≡ without_spaces text.now }
{
    &text[spaces_len(text)..]
}

/// A text without the spaces at its end.
fn without_last_spaces(text: &[u8]) -> &[u8]
    ensures { result.now ≡ without_last_spaces text.now }
{
    let mut rest = text;
    while let [front @ .., last] = rest {
        if !is_space(*last) {
            return rest;
        }
        rest = front;
    }
    rest
}

/// A text without the spaces round it.
pub(crate) fn trimmed(text: &[u8]) -> &[u8]
    ensures { result.now ≡ trimmed text.now }
{
    without_last_spaces(without_spaces(text))
}

/// The word at the front of a text, and what stands behind it and the spaces there.
#[tactic(auto, using(sc_expr::proofs::RunLemmas::front))]
pub(crate) fn cut_word(text: &[u8]) -> (&[u8], &[u8])
    ensures word { result.0.now ≡ first_word text.entry.now }
    ensures behind { result.1.now ≡ behind_word text.entry.now }
{
    let length = word_len(text);
    (&text[..length], without_spaces(&text[length..]))
}
