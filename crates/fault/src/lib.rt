//! The one numbering of refusals for the whole product.
//!
//! Each layer has an error enum of its own. `Fault` ties each of its cases to the number, the place and the layer
//! under which the case is told to the user; docs/refusals.md has the table.
#![tactic(auto)]

ghost use Rattle.std.specs.Prelude.{◌≡◌, Some};
ghost use Rattle.fault.specs.declared.Layer.{Layer};
ghost use Rattle.fault.specs.declared.Refusal.{Refusal};
ghost use Rattle.fault.specs.Print.{layer_name, layer_refusal, refusal_line};

use std::fmt;

/// The layer of the call that found a fault.
#[derive(Clone, Copy, PartialEq, Eq, Debug)]
pub enum Layer {
    Text,
    Build,
    Store,
    Bench,
}

impl Layer {
    /// The layer's name as it is printed.
    // A call of its own beside `Display`, which prints what it answers.
    pub fn name(self) -> &'static str
        ensures { result.now ≡ layer_name self }
    {
        match self {
            Layer::Text => "TEXT",
            Layer::Build => "BUILD",
            Layer::Store => "STORE",
            Layer::Bench => "BENCH",
        }
    }

    /// A refusal of this layer that has no place in the text.
    pub fn refusal(self, number: u8) -> Refusal
        ensures { result ≡ layer_refusal self number }
    {
        Refusal {
            number,
            place: 0,
            layer: self,
        }
    }
}

/// The layer's name.
impl fmt::Display for Layer {
    ghost output = { λ layer. Some (layer_name layer) };

    fn fmt<W: fmt::Write>(&self, f: &mut fmt::Formatter<W>) -> fmt::Result {
        f.write_str(self.name())
    }
}

/// What the user is told of a fault: the number of the rule that was broken (0 where no rule of the table speaks of
/// it, as at want of memory), the place in the text where there is one, and the layer.
#[derive(Clone, Copy, PartialEq, Eq, Debug)]
pub struct Refusal {
    // Numbers, and 0 for no number and for no place: they are what the user is told, and are printed so. What was wrong is a
    // case of each layer's own enum.
    pub number: u8,
    pub place: usize,
    pub layer: Layer,
}

/// The printed line: `REFUSED`, the number, the place and the layer.
impl fmt::Display for Refusal {
    ghost output = { λ x. Some (refusal_line x) };

    fn fmt<W: fmt::Write>(&self, f: &mut fmt::Formatter<W>) -> fmt::Result {
        let Refusal {
            number,
            place,
            layer,
        } = *self;
        write!(f, "REFUSED {number} {place} {layer}")
    }
}

/// An error of one of the layers.
pub trait Fault {
    /// What each case is told as.
    ghost told: { Self → Refusal };

    /// What the user is told of this fault.
    fn refusal(&self) -> Refusal
        ensures { result ≡ told self.now };
}
