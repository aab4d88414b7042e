//! Values as text: fields by their names, lists in brackets, texts and bytes in quotes.
use crate::hex::put_hex;
use mt_rows::put_escaped;
use mt_types::{Body, Bytes, Path, Sequence, Text};
use std::alloc::AllocError;

/// What is shown as text.
pub trait Show {
    /// Appends the text.
    fn show(&self, out: &mut String) -> Result<(), AllocError>;
}

/// Appends a name and a value.
pub fn put<T: Show>(out: &mut String, name: &str, value: &T) -> Result<(), AllocError> {
    out.push_str(name)?;
    out.push(' ')?;
    value.show(out)
}

impl Show for u8 {
    fn show(&self, out: &mut String) -> Result<(), AllocError> {
        write!(out, "{self}")
    }
}

impl Show for u16 {
    fn show(&self, out: &mut String) -> Result<(), AllocError> {
        write!(out, "{self}")
    }
}

impl Show for u32 {
    fn show(&self, out: &mut String) -> Result<(), AllocError> {
        write!(out, "{self}")
    }
}

impl Show for u64 {
    fn show(&self, out: &mut String) -> Result<(), AllocError> {
        write!(out, "{self}")
    }
}

impl Show for bool {
    fn show(&self, out: &mut String) -> Result<(), AllocError> {
        write!(out, "{self}")
    }
}

impl Show for Text {
    fn show(&self, out: &mut String) -> Result<(), AllocError> {
        put_quoted(out, self.as_bytes())
    }
}

impl Show for Bytes {
    fn show(&self, out: &mut String) -> Result<(), AllocError> {
        put_quoted(out, self.as_slice())
    }
}

fn put_quoted(out: &mut String, bytes: &[u8]) -> Result<(), AllocError> {
    out.push('"')?;
    put_escaped(out, bytes)?;
    out.push('"')
}

impl Show for Path {
    fn show(&self, out: &mut String) -> Result<(), AllocError> {
        out.push('/')?;
        out.push_str(self.area().name())?;
        for k in 0..self.len() {
            out.push('/')?;
            put_escaped(out, self.part(k))?;
        }
        Ok(())
    }
}

impl Show for Body {
    fn show(&self, out: &mut String) -> Result<(), AllocError> {
        write!(out, "{}+{} md5 ", self.first, self.len)?;
        put_hex(out, &self.md5)
    }
}

impl<T: Show> Show for Option<T> {
    fn show(&self, out: &mut String) -> Result<(), AllocError> {
        match self {
            Some(value) => value.show(out),
            None => out.push_str("none"),
        }
    }
}

impl<T: Show> Show for Sequence<T> {
    fn show(&self, out: &mut String) -> Result<(), AllocError> {
        out.push('[')?;
        let mut between = "";
        for value in self.as_slice() {
            out.push_str(between)?;
            value.show(out)?;
            between = "; ";
        }
        out.push(']')
    }
}
