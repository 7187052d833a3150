//! Worked examples from their text.

use crate::example::{Example, Table};
use alias_base::Text;
use anyhow::{Context, Result, bail};
use std::alloc::{AllocError, Global};

fn push_line(text: &mut Text, line: &str) -> Result<(), AllocError> {
    text.push_str(line)?;
    text.push_str("\n")
}

fn push_line_behind(text: &mut Text, line: &str) -> Result<(), AllocError> {
    text.push_str("\n")?;
    text.push_str(line)
}

fn push_blanks(text: &mut Text, count: usize) -> Result<(), AllocError> {
    for _ in 0..count {
        text.push_str(" ")?;
    }
    Ok(())
}

fn table_named(name: &str) -> Result<Table> {
    if name == "read" {
        Ok(Table::EachRead)
    } else if name == "write" {
        Ok(Table::EachWrite)
    } else if name == "prefix" {
        Ok(Table::EachPrefix)
    } else {
        bail!("each read, write or prefix")
    }
}

/// Takes what a line says of an example. A line that says nothing of one is a remark.
fn take(example: &mut Example, key: &str, value: &str) -> Result<()> {
    if key == "words" {
        example.words.push_str(value)?;
    } else if key == "unit" {
        example.input.push_str(value)?;
    } else if key == "+" {
        push_line_behind(&mut example.input, value)?;
    } else if key == "blanks" {
        push_blanks(
            &mut example.input,
            value.parse().context("how many blanks")?,
        )?;
    } else if key == "piece" {
        example.piece = value.parse().context("how many bytes a piece has")?;
    } else if key == "failing_read" {
        example.failing_read = value.parse().context("the number of a read")?;
    } else if key == "failing_write" {
        example.failing_write = value.parse().context("the number of a write")?;
    } else if key == "status" {
        example.status = value.parse().context("a status")?;
    } else if key == ">" {
        push_line(&mut example.written, value)?;
    } else if key == "cut" {
        example.written.push_str(value)?;
    } else if key == "each" {
        example.table = table_named(value)?;
    }
    Ok(())
}

/// The examples of a text, in its order.
pub fn examples(alloc: Global, text: &str) -> Result<Vec<Example>> {
    let mut examples = Vec::new(alloc);
    let mut unit = Text::new(alloc);
    for line in text.lines() {
        let Some((key, value)) = line.split_once(' ') else {
            continue;
        };
        if key == "unit" {
            unit = Text::from_str(alloc, value)?;
        }
        if key == "example" {
            examples.push(Example::new(alloc, value)?)?;
        } else if let Some(example) = examples.last_mut() {
            if key == "same" {
                example.input.push_str(unit.as_str())?;
            } else {
                take(example, key, value)?;
            }
        }
    }
    Ok(examples)
}
