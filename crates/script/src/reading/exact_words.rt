// The words behind a command's verb, as many as they have to be.
ghost use Rattle.std.specs.Prelude.{◌≡◌, ◌≢◌, [], ◌∷◌, length, MatchOption};
ghost use Rattle.script.specs.Lines.{words};

use crate::reading::split::first_part;

// The one word.
pub fn one_word(bytes: &[u8]) -> Option<&[u8]>
    ensures { MatchOption result (length (words bytes.now) ≢ 1)
        (λ word. words bytes.now ≡ word.now ∷ []) }
{
    let (word, rest) = first_part(bytes, b' ');
    match rest {
        Some(_) => None,
        None => Some(word),
    }
}

// The two words.
pub fn two_words(bytes: &[u8]) -> Option<(&[u8], &[u8])>
    ensures { MatchOption result (length (words bytes.now) ≢ 2)
        (λ pair. words bytes.now ≡ pair.0.now ∷ pair.1.now ∷ []) }
{
    let (first, rest) = first_part(bytes, b' ');
    let second = one_word(rest?)?;
    Some((first, second))
}

// The three words.
pub fn three_words(bytes: &[u8]) -> Option<(&[u8], &[u8], &[u8])>
    ensures { MatchOption result (length (words bytes.now) ≢ 3)
        (λ triple. words bytes.now ≡ triple.0.now ∷ triple.1.now ∷ triple.2.now ∷ []) }
{
    let (first, rest) = first_part(bytes, b' ');
    let (second, third) = two_words(rest?)?;
    Some((first, second, third))
}
