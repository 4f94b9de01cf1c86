//! What files come to that the layer above hands on: a text, and the records of a trace.
ghost use Rattle.std.specs.Prelude.{◌≡◌};

use rv_core::Record;
use std::marker::Model;

/// A text for the console. Contracts see its bytes.
#[derive(Drop)]
pub struct Text {
    bytes: Vec<u8>,
}

impl Model for Text {
    ghost use Rattle.std.specs.Prelude.{ℕ, List};

    ghost Value = { List ℕ };

    ghost view = { λ t. t.bytes.items };
}

impl Text {
    pub fn new(bytes: Vec<u8>) -> Text
        ensures { result ≡ bytes.items }
    {
        Text { bytes }
    }

    pub fn bytes(&self) -> &[u8]
        ensures { result.now ≡ self.now }
    {
        self.bytes.as_slice()
    }
}

/// The records of a trace. Contracts see the list of them.
#[derive(Drop)]
pub struct Trace {
    records: Vec<Record>,
}

impl Model for Trace {
    ghost use Rattle.std.specs.Prelude.{List};
    ghost use Rattle.rv_core.specs.declared.step.Record.{Record};

    ghost Value = { List Record };

    ghost view = { λ t. t.records.items };
}

impl Trace {
    pub fn new(records: Vec<Record>) -> Trace
        ensures { result ≡ records.items }
    {
        Trace { records }
    }

    pub fn records(&self) -> &[Record]
        ensures { result.now ≡ self.now }
    {
        self.records.as_slice()
    }
}
