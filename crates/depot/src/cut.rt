// Cuts bytes into lines and words.
ghost use Rattle.std.specs.Prelude.{◌≡◌, ◌<◌, [], ◌∷◌, length, IfSome, MatchOption};
ghost use Rattle.depot.specs.Cuts.{blank, code, past_word, words};

fn is_blank(byte: u8) -> bool
    ensures { result ≡ blank byte }
{
    matches!(byte, b' ' | b'\t' | b'\r')
}

// The bytes of a line up to its comment.
pub(crate) fn without_comment(line: &[u8]) -> &[u8]
    ensures { result.now ≡ code line.now }
{
    let end = line.iter().take_while(|b| **b != b'#').count();
    &line[..end]
}

// The first word and what follows it.
pub fn first_word(bytes: &[u8]) -> Option<(&[u8], &[u8])>
    ensures value { MatchOption result (words bytes.now ≡ []) (λ p. words bytes.now ≡ p.0.now ∷ words p.1.now) }
    ensures rest { IfSome result (λ p. p.1.now ≡ past_word bytes.now) }
    ensures shorter { IfSome result (λ p. length p.1.now < length bytes.now) }
{
    let start = bytes.iter().position(|b| !is_blank(*b))?;
    let (_, from) = bytes.split_at(start);
    let end = from.iter().take_while(|b| !is_blank(**b)).count();
    Some(from.split_at(end))
}
