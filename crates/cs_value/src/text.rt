//! The text of a value.
ghost use Rattle.std.specs.Prelude.{◌≡◌, ◌≤◌, ℕ, List, length, string_len, IfOk};
ghost use Rattle.std.specs.String.{string_bytes};
ghost use Rattle.cs_value.specs.declared.TheConstants.{MAX_CONTENT_LEN};

use crate::refusal::NoMemory;
use std::alloc::Global;
use std::marker::Model;

/// The text of a value: UTF-8 of at most [`MAX_CONTENT_LEN`](crate::MAX_CONTENT_LEN) bytes. Contracts see the list of
/// its bytes.
#[derive(Debug, Drop)]
pub struct Text {
    text: String,
}

impl Model for Text {
    ghost Value = { List ℕ };

    ghost view = { λ t. string_bytes t.text };

    ghost invariant = { λ t. length (string_bytes t.text) ≤ MAX_CONTENT_LEN };
}

impl Text {
    /// Returns the text of a string. It allocates nothing. [`OwnedValue::fits`](crate::OwnedValue::fits) tests whether
    /// the string is short enough.
    pub fn new(text: String) -> Text
        requires { string_len text ≤ MAX_CONTENT_LEN }
        ensures { result ≡ string_bytes text }
    {
        Text { text }
    }

    /// Returns the text as a string slice.
    pub fn as_str(&self) -> &str
        ensures same { result.now ≡ self.now }
        ensures short { length result.now ≤ MAX_CONTENT_LEN }
    {
        self.text.as_str()
    }

    /// Returns a copy of the text.
    pub fn copy(&self, alloc: Global) -> Result<Text, NoMemory>
        ensures { IfOk result (λ x. x ≡ self.now) }
    {
        Ok(Text::new(String::from_str(alloc, self.as_str())?))
    }

    /// Returns the string. It allocates nothing.
    pub fn into_string(self) -> String
        ensures { string_bytes result ≡ self }
    {
        let Text { text } = self;
        text
    }
}

impl PartialEq for Text {
    ghost use Rattle.std.specs.Prelude.{nat_eq};
    ghost use Rattle.std.specs.Cmp.{partial_equiv_from_equiv};
    ghost use Rattle.std.specs.Cmp.Lexicographic.{pointwise, nat_list_eq_equiv};

    ghost eq = { pointwise nat_eq };

    ghost laws = { partial_equiv_from_equiv nat_list_eq_equiv };

    fn eq(&self, other: &Text) -> bool {
        self.text == other.text
    }
}

impl Eq for Text {
    ghost use Rattle.std.specs.Cmp.Lexicographic.{nat_list_eq_equiv};

    ghost laws = { nat_list_eq_equiv };
}
