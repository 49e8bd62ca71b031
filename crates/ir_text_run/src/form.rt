//! The words of the command line.
ghost use Rattle.std.specs.Prelude.{◌≡◌, ◌≢◌, ◌↔◌, [], All, Some, codes, string_bytes};

/// How the input is taken.
#[derive(Clone, Copy, Debug, Drop, PartialEq, Eq)]
pub enum Form {
    /// As one text.
    Whole,
    /// As parts, each a text of its own, divided by lines `// -----`.
    Parts,
}

impl Form {
    /// What these words ask for: with none the whole; parts, where each is `--split-input-file`; nothing, where one is another word.
    pub fn of_words(words: &[String]) -> Option<Form>
        ensures whole { (result ≡ Some Form.Whole) ↔ (words.now ≡ []) }
        ensures parts { (result ≡ Some Form.Parts) ↔ ((words.now ≢ []) × All (λ word. string_bytes word ≡ codes "--split-input-file") words.now) }
    {
        if words.is_empty() {
            return Some(Form::Whole);
        }
        if words
            .iter()
            .all(|word| word.as_str() == "--split-input-file")
        {
            Some(Form::Parts)
        } else {
            None
        }
    }
}
