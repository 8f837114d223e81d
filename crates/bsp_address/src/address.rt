ghost use Rattle.std.specs.Prelude.{◌≡◌, ◌≤◌, IfOk, IfSome, IfNone, length};
ghost use Rattle.std.specs.Char.{is_ascii_graphic};
ghost use Rattle.std.specs.List.{list_all};
ghost use Rattle.std.specs.Str.{IsUtf8};

use ob_text::{NoMemory, Text};
use std::alloc::Global;
use std::marker::Model;

/// The most bytes of an address.
const ADDRESS_LIMIT: usize = 4_355;

/// The address of a document, or the id of a target.
#[derive(Debug, Drop, PartialEq, Eq, Hash)]
pub struct Address {
    text: Text,
}

impl Model for Address {
    ghost use Rattle.std.specs.Prelude.{ℕ, List};
    ghost use Rattle.bsp_address.specs.Address.{IsAddress};

    ghost Value = { List ℕ };

    ghost view = { λ address. address.text };

    ghost inverse = { λ text. record { text = text } };

    ghost invariant = { λ address. IsAddress address.text };
}

impl Address {
    ghost use Rattle.bsp_address.specs.Address.{IsAddress};

    /// The address that a text is. Takes no memory.
    pub fn new(text: Text) -> Address
        requires { IsAddress text }
        ensures { result ≡ text }
    {
        Address { text }
    }

    /// The same of any text, where it is an address. Takes no memory.
    pub fn from_text(text: Text) -> Option<Address>
        ensures some { IfSome result (λ address. address ≡ text) }
        ensures none { IfNone result (¬ (IsAddress text)) }
    {
        if text.as_slice().len() <= ADDRESS_LIMIT && is_graphic(text.as_slice()) {
            Some(Address { text })
        } else {
            None
        }
    }

    /// Its text.
    #[tactic(auto, using(crate::proofs::AddressLaws::address_utf8))]
    pub fn as_text(&self) -> &Text
        ensures text { result.now ≡ self.now }
        ensures address { IsAddress result.now }
        ensures utf8 { IsUtf8 result.now }
    {
        &self.text
    }

    /// Gives its text. Takes no memory.
    #[tactic(auto, using(crate::proofs::AddressLaws::address_utf8))]
    pub fn into_text(self) -> Text
        ensures text { result ≡ self }
        ensures address { IsAddress result }
        ensures utf8 { IsUtf8 result }
    {
        let Address { text } = self;
        text
    }

    /// An equal value of its own.
    pub fn copy(&self, alloc: Global) -> Result<Address, NoMemory>
        ensures same { IfOk result (λ address. address ≡ self.now) }
        ensures address { IsAddress self.now }
    {
        Ok(Address {
            text: self.text.copy(alloc)?,
        })
    }
}

/// Whether a text holds printing ASCII characters alone, without blanks.
pub fn is_graphic(text: &[u8]) -> bool
    ensures { result ≡ list_all is_ascii_graphic text.now }
{
    text.iter().all(|byte| byte.is_ascii_graphic())
}
