//! Values of a reply. Texts and contents are shared, and the keys of a map stand in the order of their bytes.

ghost use Rattle.std.specs.Prelude.{◌≡◌, ◌<◌, ◌^◌, All, IfOk, IsUtf8, map};
ghost use Rattle.esb_wire.specs.declared.value.Value.{Value};
ghost use Rattle.esb_wire.specs.declared.value.Value.TheVariants as values;
ghost use Rattle.esb_wire.specs.Size.{IsShaped};
ghost use Rattle.esb_reply.specs.Reply.{error_value, message_value, file_value, result_map, shown_files};

use esb_ask::{Message, OutFile};
use esb_base::{List, Memory, Text};
use esb_wire::Value;
use std::alloc::Global;

/// A pair of a map.
fn entry(alloc: Global, key: &str, value: Value) -> Result<(Text, Value), Memory>
    ensures { IfOk result (λ pair. pair ≡ (key.now, value)) }
{
    let key = Text::of(alloc, key)?;
    Ok((key, value))
}

fn number_value(number: u32) -> Value
    ensures value { result ≡ values.Number number }
    ensures fits { number < 2 ^ 32 }
{
    Value::Number(number)
}

fn text_value(text: &Text) -> Result<Value, Memory>
    ensures value { IfOk result (λ value. value ≡ values.Str text.now) }
    ensures utf8 { IsUtf8 text.now }
{
    // Its bytes are UTF-8, which only a reader of them learns.
    let _bytes = text.as_bytes();
    Ok(Value::Str(text.share()?))
}

pub fn error_value(alloc: Global, text: &Text) -> Result<Value, Memory>
    ensures value { IfOk result (λ value. value ≡ error_value text.now) }
    ensures shaped { IfOk result (IsShaped 4) }
{
    let text = text_value(text)?;
    let pairs = vec![in alloc; entry(alloc, "error", text)?]?;
    Ok(Value::Map(List::from_vec(pairs)))
}

fn message_value(alloc: Global, message: &Message) -> Result<Value, Memory>
    ensures value { IfOk result (λ value. value ≡ message_value message.now) }
    ensures shaped { IfOk result (IsShaped 2) }
{
    let file = text_value(&message.file)?;
    let text = text_value(&message.text)?;
    let pairs = vec![in alloc;
        entry(alloc, "column", number_value(message.column))?,
        entry(alloc, "file", file)?,
        entry(alloc, "length", number_value(message.length))?,
        entry(alloc, "line", number_value(message.line))?,
        entry(alloc, "text", text)?,
    ]?;
    Ok(Value::Map(List::from_vec(pairs)))
}

fn file_value(alloc: Global, file: &OutFile) -> Result<Value, Memory>
    ensures value { IfOk result (λ value. value ≡ file_value file.now) }
    ensures shaped { IfOk result (IsShaped 2) }
{
    let path = text_value(&file.path)?;
    let contents = Value::Bytes(file.contents.share()?);
    let pairs = vec![in alloc;
        entry(alloc, "contents", contents)?,
        entry(alloc, "path", path)?,
    ]?;
    Ok(Value::Map(List::from_vec(pairs)))
}

pub fn message_values(alloc: Global, messages: &[Message]) -> Result<List<Value>, Memory>
    ensures values { IfOk result (λ values. values ≡ map message_value messages.now) }
    ensures shaped { IfOk result (λ values. All (IsShaped 2) values) }
{
    let mut values = Vec::with_capacity(alloc, messages.len())?;
    for message in messages {
        values.push(message_value(alloc, message)?)?;
    }
    Ok(List::from_vec(values))
}

/// The files of a result: none where the build wrote them.
pub fn file_values(alloc: Global, files: &[OutFile], write: bool) -> Result<List<Value>, Memory>
    ensures values { IfOk result (λ values. values ≡ map file_value (shown_files write files.now)) }
    ensures shaped { IfOk result (λ values. All (IsShaped 2) values) }
{
    if write {
        return Ok(List::new(alloc));
    }
    let mut values = Vec::with_capacity(alloc, files.len())?;
    for file in files {
        values.push(file_value(alloc, file)?)?;
    }
    Ok(List::from_vec(values))
}

pub fn result_value(alloc: Global, errors: List<Value>, files: List<Value>) -> Result<Value, Memory>
    requires errors { All (IsShaped 2) errors }
    requires files { All (IsShaped 2) files }
    ensures value { IfOk result (λ value. value ≡ result_map errors files) }
    ensures shaped { IfOk result (IsShaped 4) }
{
    let errors = Value::Array(errors);
    let files = Value::Array(files);
    let pairs = vec![in alloc;
        entry(alloc, "errors", errors)?,
        entry(alloc, "outputFiles", files)?,
    ]?;
    Ok(Value::Map(List::from_vec(pairs)))
}
