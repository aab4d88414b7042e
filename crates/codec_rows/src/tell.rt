//! The values of commands, jobs and tasks as text.
use crate::show::{Show, put};
use mt_types::{
    Archive, Body, Fate, Field, InputLine, Item, JobDocument, Outcome, PartRow, Phase, PhaseKind,
    TaskFailure, TaskRecord, TraceEntry,
};
use std::alloc::AllocError;

impl Show for Field {
    fn show(&self, out: &mut String) -> Result<(), AllocError> {
        self.name.show(out)?;
        out.push(' ')?;
        self.value.show(out)
    }
}

impl Show for PhaseKind {
    fn show(&self, out: &mut String) -> Result<(), AllocError> {
        write!(out, "{self:?}")
    }
}

impl Show for TaskFailure {
    fn show(&self, out: &mut String) -> Result<(), AllocError> {
        write!(out, "{self:?}")
    }
}

impl Show for Phase {
    fn show(&self, out: &mut String) -> Result<(), AllocError> {
        self.kind.show(out)?;
        put(out, ", exec", &self.exec)?;
        put(out, ", init", &self.init)?;
        put(out, ", assets", &self.assets)
    }
}

impl Show for JobDocument {
    fn show(&self, out: &mut String) -> Result<(), AllocError> {
        self.name.show(out)?;
        put(out, ", phases", &self.phases)
    }
}

impl Show for InputLine {
    fn show(&self, out: &mut String) -> Result<(), AllocError> {
        match self {
            InputLine::Named(path) => put(out, "named", path),
            InputLine::Other(text) => put(out, "other", text),
        }
    }
}

impl Show for TaskRecord<Body> {
    fn show(&self, out: &mut String) -> Result<(), AllocError> {
        match self {
            TaskRecord::Emit {
                place,
                reducer,
                body,
            } => {
                put(out, "emit place", place)?;
                put(out, ", reducer", reducer)?;
                put(out, ", body", body)
            }
            TaskRecord::Keep { place, body } => {
                put(out, "keep place", place)?;
                put(out, ", body", body)
            }
            TaskRecord::Ref { name } => put(out, "ref", name),
        }
    }
}

impl Show for Fate<Body> {
    fn show(&self, out: &mut String) -> Result<(), AllocError> {
        match self {
            Fate::Good(records) => put(out, "good", records),
            Fate::Bad {
                failure,
                status,
                stderr,
            } => {
                put(out, "bad", failure)?;
                put(out, ", status", status)?;
                put(out, ", stderr", stderr)
            }
        }
    }
}

impl Show for Archive<Body> {
    fn show(&self, out: &mut String) -> Result<(), AllocError> {
        put(out, "err", &self.err)?;
        put(out, ", fail", &self.fail)?;
        put(out, ", input", &self.input)?;
        put(out, ", status", &self.status)?;
        put(out, ", out", &self.out)
    }
}

impl Show for Item<Body> {
    fn show(&self, out: &mut String) -> Result<(), AllocError> {
        self.name.show(out)?;
        put(out, ", root", &self.root)?;
        put(out, ", body", &self.body)?;
        put(out, ", reducer", &self.reducer)
    }
}

impl Show for Outcome<Body> {
    fn show(&self, out: &mut String) -> Result<(), AllocError> {
        match self {
            Outcome::Good(items) => put(out, "good", items),
            Outcome::Bad {
                failure,
                status,
                stderr,
            } => {
                put(out, "bad", failure)?;
                put(out, ", status", status)?;
                put(out, ", stderr", stderr)
            }
        }
    }
}

impl Show for TraceEntry<Body> {
    fn show(&self, out: &mut String) -> Result<(), AllocError> {
        put(out, "phase", &self.phase)?;
        put(out, ", place", &self.place)?;
        put(out, ", position", &self.position)?;
        put(out, ",", &self.outcome)
    }
}

impl Show for PartRow<Body> {
    fn show(&self, out: &mut String) -> Result<(), AllocError> {
        put(out, "index", &self.index)?;
        put(out, ", number", &self.number)?;
        put(out, ", body", &self.body)
    }
}
