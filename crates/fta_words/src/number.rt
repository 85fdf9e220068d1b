ghost use Rattle.std.specs.Prelude.{◌≡◌, ℕ, Option, Some, IfSome, option_map};
ghost use Rattle.fta_words.specs.Words.{IsNumberText, Says};

/// The number that an option says, where it is given; none where its text is none of a number.
pub(crate) fn number_said(text: Option<&[u8]>) -> Option<Option<u32>>
    ensures found { IfSome result (λ said. Says IsNumberText (option_map (λ t. t.now) text.entry) said) }
    ensures only { (said : Option ℕ) → Says IsNumberText (option_map (λ t. t.now) text.entry) said → result ≡ Some said }
{
    match text {
        None => Some(None),
        Some(text) => Some(Some(number_of(text)?)),
    }
}

/// The number of a text of one to nine decimal digits, if it has that form.
pub(crate) fn number_of(text: &[u8]) -> Option<u32>
    ensures found { IfSome result (λ number. IsNumberText text.now number) }
    ensures only { (number : ℕ) → IsNumberText text.now number → result ≡ Some number }
{
    if text.is_empty() || text.len() > 9 {
        return None;
    }
    let mut number: u32 = 0;
    for digit in text {
        if *digit < b'0' || *digit > b'9' {
            return None;
        }
        number = number * 10 + u32::from(*digit - b'0');
    }
    Some(number)
}
