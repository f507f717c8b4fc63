//! What a put writes, as a script says it.

use crate::listing::Listing;
use std::marker::Model;

/// How the bytes of a recipe are told.
#[derive(Clone, Drop)]
pub enum Form {
    /// The bytes themselves: 1 to 32.
    Hex(Listing<u8>),
    /// One byte, `len` times; `len` is at most 268,435,456.
    Fill { byte: u8, len: u32 },
    /// Bytes that look drawn but follow from `start`, so that two places of a file are seldom
    /// alike; `len` is at most 268,435,456.
    Pattern { start: u32, len: u32 },
}

/// The bytes of a put. Contracts see the form.
#[derive(Clone, Drop)]
pub struct Recipe {
    pub form: Form,
}

impl Model for Recipe {
    ghost use Rattle.qfs_base.specs.declared.recipe.Form.{Form};
    ghost use Rattle.qfs_base.specs.Recipe.{IsRecipe};

    ghost Value = { Form };

    ghost view = { λ recipe. recipe.form };

    ghost invariant = { λ recipe. IsRecipe recipe.form };

    ghost inverse = { λ form. record { form = form } };
}
