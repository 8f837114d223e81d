use ob_text::Bytes;

/// The bytes are the key of a view.
#[derive(Clone, Copy, Debug)]
pub struct KeyKind;

/// What a module shows, in its canonical form: a key that two views share exactly where they show the same.
pub type Key = Bytes<KeyKind>;
