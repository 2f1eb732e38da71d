//! Why a text is refused, and where.
#![tactic(auto)]

ghost use Rattle.std.specs.Prelude.{◌≡◌, Some};
ghost use Rattle.line.specs.declared.refusal.Refusal.TheVariants.{NoForm as Formless};
ghost use Rattle.faults.specs.Faults.{layer_word, in_task, in_table, in_text, placed, fault_words};

use forms::form::NoForm;
use line::refusal::Refusal;
use std::fmt;

/// The layer that refuses: the text, the table, or one angular task.
#[derive(Clone, Copy, PartialEq, Eq, Debug)]
pub enum Layer {
    Text,
    Table,
    Task,
}

impl Layer {
    /// The word for a layer.
    pub fn word(self) -> &'static str
        ensures { result.now ≡ layer_word self }
    {
        match self {
            Layer::Text => "text",
            Layer::Table => "table",
            Layer::Task => "task",
        }
    }
}

impl fmt::Display for Layer {
    ghost output = { λ layer. Some (layer_word layer) };

    fn fmt<W: fmt::Write>(&self, f: &mut fmt::Formatter<W>) -> fmt::Result {
        f.write_str(self.word())
    }
}

// Two types, and not one with a layer beside it: which call refused tells `?` the layer.

/// A refusal of mode, link or close.
#[derive(Clone, Copy)]
pub struct TaskFault(pub Refusal);

/// A refusal of put or open, or of load before it reads a line.
#[derive(Clone, Copy)]
pub struct TableFault(pub Refusal);

/// A refusal and its layer.
#[derive(Clone, Copy)]
pub struct LineFault {
    pub refusal: Refusal,
    pub layer: Layer,
}

/// A refusal of load: its layer, the line, counted from 1, and the byte place of that line. Line and
/// place are 0 where load refuses before it reads a line.
// 0 and not an Option: both are printed, and docs/TEXT.md fixes line 0, place 0.
#[derive(Clone, Copy)]
pub struct LoadFault {
    pub refusal: Refusal,
    pub line: usize,
    pub place: usize,
    pub layer: Layer,
}

/// A refused load in words: its number, line, byte place and layer.
impl fmt::Display for LoadFault {
    ghost output = { λ fault. Some (fault_words fault) };

    fn fmt<W: fmt::Write>(&self, f: &mut fmt::Formatter<W>) -> fmt::Result {
        let number = self.refusal.number();
        let line = self.line;
        let place = self.place;
        let layer = self.layer;
        write!(f, "refused {number} {line} {place} {layer}")
    }
}

impl From<Refusal> for TaskFault {
    ghost from_gives = { λ e r. r.0 ≡ e };

    fn from(refusal: Refusal) -> TaskFault {
        TaskFault(refusal)
    }
}

impl From<Refusal> for TableFault {
    ghost from_gives = { λ e r. r.0 ≡ e };

    fn from(refusal: Refusal) -> TableFault {
        TableFault(refusal)
    }
}

impl From<TaskFault> for LineFault {
    ghost from_gives = { λ e r. r ≡ in_task e.0 };

    fn from(fault: TaskFault) -> LineFault {
        LineFault {
            refusal: fault.0,
            layer: Layer::Task,
        }
    }
}

impl From<TableFault> for LineFault {
    ghost from_gives = { λ e r. r ≡ in_table e.0 };

    fn from(fault: TableFault) -> LineFault {
        LineFault {
            refusal: fault.0,
            layer: Layer::Table,
        }
    }
}

impl From<NoForm> for LineFault {
    ghost from_gives = { λ _ r. r ≡ in_text Formless };

    fn from(_none: NoForm) -> LineFault {
        LineFault::text(Refusal::NoForm)
    }
}

impl From<TableFault> for LoadFault {
    ghost from_gives = { λ e r. r ≡ placed (in_table e.0) 0 0 };

    fn from(fault: TableFault) -> LoadFault {
        LineFault::from(fault).at(0, 0)
    }
}

impl LineFault {
    /// A refusal of the text itself.
    pub fn text(refusal: Refusal) -> LineFault
        ensures { result ≡ in_text refusal }
    {
        LineFault {
            refusal,
            layer: Layer::Text,
        }
    }

    /// The refusal at a line and its byte place.
    pub fn at(self, line: usize, place: usize) -> LoadFault
        ensures { result ≡ placed self line place }
    {
        LoadFault {
            refusal: self.refusal,
            line,
            place,
            layer: self.layer,
        }
    }
}
