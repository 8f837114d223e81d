ghost use Rattle.std.specs.Prelude.{◌≡◌, IfOk};
ghost use Rattle.std.specs.Str.{IsUtf8};

use json_shape::{Checked, Within};
use ob_text::{Bytes, NoMemory, Text};
use std::alloc::Global;

/// The most bytes of an originId.
const ORIGIN_LIMIT: usize = 1_024;

/// The most bytes of a rootUri.
const ROOT_URI_LIMIT: usize = 4_096;

/// The originId of a request.
pub(crate) type OriginId = Bytes<Checked<Within<ORIGIN_LIMIT>>>;

/// The rootUri of an initialize.
pub(crate) type RootUri = Bytes<Checked<Within<ROOT_URI_LIMIT>>>;

/// A text of any kind that may be absent, as a text.
pub(crate) fn plain<K>(found: Option<Bytes<K>>) -> Option<Text>
    ensures { result ≡ found }
{
    match found {
        Some(bytes) => Some(Text::from_vec(bytes.into_vec())),
        None => None,
    }
}

/// Owns a copy of a text.
pub(crate) fn owned<K>(alloc: Global, text: &str) -> Result<Bytes<K>, NoMemory>
    ensures same { IfOk result (λ bytes. bytes ≡ text.now) }
    ensures text { IfOk result IsUtf8 }
{
    Bytes::new(alloc, text.as_bytes())
}
