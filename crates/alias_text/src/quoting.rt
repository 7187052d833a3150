//! Texts as JSON texts.
ghost use Rattle.std.specs.Prelude.{◌≡◌, ◌++◌, OnOk, IfOk};
ghost use Rattle.json.specs.Print.{quoted};

use alias_base::Text;
use serde_json::Value;
use std::alloc::{AllocError, Global};

/// The text as `serde_json` writes it.
pub fn quoted(alloc: Global, text: &str) -> Result<Text, AllocError>
    ensures { IfOk result (λ t. t ≡ quoted text.now) }
{
    let value = Value::String(String::from_str(alloc, text)?);
    Text::from_str(alloc, &value.to_string(alloc)?)
}

/// Appends the text as `serde_json` writes it.
pub(crate) fn push_quoted(alloc: Global, out: &mut Text, text: &str) -> Result<(), AllocError>
    ensures { OnOk result (out.new ≡ out.old ++ quoted text.now) }
{
    let written = quoted(alloc, text)?;
    out.push_str(written.as_str())
}
