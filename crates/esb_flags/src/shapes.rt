//! What a value of a packet is read as, by its shape.

ghost use Rattle.std.specs.Prelude.{◌≡◌, ℕ, Bool, List as Listed, Option};
ghost use Rattle.esb_wire.specs.declared.value.Value.{Value};
ghost use Rattle.esb_wire.specs.Field.{field};
ghost use Rattle.esb_flags.specs.declared.shapes.Misfit.TheVariants.{Memory as refused};
ghost use Rattle.esb_flags.specs.Answers.{Reads};
ghost use Rattle.esb_flags.specs.Shapes.{number, boolean, text, array, each, list_of, required, optional, entry, filter, plugin, plugins};

use crate::options::{Filter, Plugin};
use esb_base::{List, Memory, Text};
use esb_wire::Value;
use std::alloc::Global;

/// The most plug-ins of a build.
const MOST_PLUGINS: usize = 64;

/// Why a value was not read.
#[derive(Clone, Copy, Debug, PartialEq, Eq)]
pub(crate) enum Misfit {
    /// It is absent, or has another shape.
    Shape,
    Memory,
}

impl From<Memory> for Misfit {
    ghost from_gives = { λ _ fault. fault ≡ refused };

    fn from(_refused: Memory) -> Misfit {
        Misfit::Memory
    }
}

/// What a value of one shape is read as.
pub(crate) trait Shaped: Sized {
    ghost shape: { Value → Option Self };

    fn read(alloc: Global, value: &Value) -> Result<Self, Misfit>
        ensures { Reads (λ x. x) result (shape value.now) };
}

fn array_of(value: &Value) -> Result<&[Value], Misfit>
    ensures { Reads (λ x. x.now) result (array value.now) }
{
    match value {
        Value::Array(values) => Ok(values.as_slice()),
        _ => Err(Misfit::Shape),
    }
}

fn each<T: Shaped + Drop>(alloc: Global, values: &[Value]) -> Result<List<T>, Misfit>
    ensures { Reads (λ x. x) result (each T.shape values.now) }
{
    let mut found = List::new(alloc);
    for value in values {
        let item = T::read(alloc, value)?;
        found.push(item)?;
    }
    Ok(found)
}

#[tactic(auto, unfolding(crate::specs::Shapes::list_of))]
fn list_of<T: Shaped + Drop>(alloc: Global, value: &Value) -> Result<List<T>, Misfit>
    ensures { Reads (λ x. x) result (list_of T.shape value.now) }
{
    each(alloc, array_of(value)?)
}

fn found_field<'a>(value: &'a Value, name: &str) -> Result<&'a Value, Misfit>
    ensures { Reads (λ x. x.now) result (field name.now value.now) }
{
    match value.field(name) {
        Some(found) => Ok(found),
        None => Err(Misfit::Shape),
    }
}

/// The field of a map.
#[tactic(auto, unfolding(crate::specs::Shapes::required))]
pub(crate) fn required<T: Shaped>(alloc: Global, value: &Value, name: &str) -> Result<T, Misfit>
    ensures { Reads (λ x. x) result (required name.now T.shape value.now) }
{
    T::read(alloc, found_field(value, name)?)
}

/// The field of a map, or `absent` where there is none.
#[tactic(auto, unfolding(crate::specs::Shapes::optional))]
pub(crate) fn optional<T: Shaped + Drop>(
    alloc: Global,
    value: &Value,
    name: &str,
    absent: T,
) -> Result<T, Misfit>
    ensures { Reads (λ x. x) result (optional name.now absent T.shape value.now) }
{
    match value.field(name) {
        Some(found) => T::read(alloc, found),
        None => Ok(absent),
    }
}

impl Shaped for u32 {
    ghost shape = { number };

    fn read(_alloc: Global, value: &Value) -> Result<u32, Misfit> {
        match value {
            Value::Number(number) => Ok(*number),
            _ => Err(Misfit::Shape),
        }
    }
}

impl Shaped for bool {
    ghost shape = { boolean };

    fn read(_alloc: Global, value: &Value) -> Result<bool, Misfit> {
        match value {
            Value::Bool(flag) => Ok(*flag),
            _ => Err(Misfit::Shape),
        }
    }
}

impl Shaped for Text {
    ghost shape = { text };

    fn read(_alloc: Global, value: &Value) -> Result<Text, Misfit> {
        match value {
            Value::Str(text) => Ok(text.share()?),
            _ => Err(Misfit::Shape),
        }
    }
}

impl Shaped for (Text, Text) {
    ghost shape = { entry };

    #[tactic(auto, unfolding(crate::specs::Shapes::entry))]
    fn read(alloc: Global, value: &Value) -> Result<(Text, Text), Misfit> {
        match array_of(value)? {
            [out, path] => {
                let out = Text::read(alloc, out)?;
                let path = Text::read(alloc, path)?;
                Ok((out, path))
            }
            _ => Err(Misfit::Shape),
        }
    }
}

impl Shaped for Filter {
    ghost shape = { filter };

    #[tactic(auto, unfolding(crate::specs::Shapes::filter))]
    fn read(alloc: Global, value: &Value) -> Result<Filter, Misfit> {
        let id = required(alloc, value, "id")?;
        let namespace = required(alloc, value, "namespace")?;
        let suffix = required(alloc, value, "suffix")?;
        Ok(Filter {
            id,
            namespace,
            suffix,
        })
    }
}

impl Shaped for Plugin {
    ghost shape = { plugin };

    #[tactic(auto, unfolding(crate::specs::Shapes::plugin))]
    fn read(alloc: Global, value: &Value) -> Result<Plugin, Misfit> {
        let name = required(alloc, value, "name")?;
        let on_resolve = optional(alloc, value, "onResolve", List::new(alloc))?;
        let on_load = optional(alloc, value, "onLoad", List::new(alloc))?;
        let on_end = optional(alloc, value, "onEnd", false)?;
        Ok(Plugin {
            name,
            on_resolve,
            on_load,
            on_end,
        })
    }
}

impl Shaped for List<Text> {
    ghost shape = { list_of text };

    fn read(alloc: Global, value: &Value) -> Result<List<Text>, Misfit> {
        list_of(alloc, value)
    }
}

impl Shaped for List<(Text, Text)> {
    ghost shape = { list_of entry };

    fn read(alloc: Global, value: &Value) -> Result<List<(Text, Text)>, Misfit> {
        list_of(alloc, value)
    }
}

impl Shaped for List<Filter> {
    ghost shape = { list_of filter };

    fn read(alloc: Global, value: &Value) -> Result<List<Filter>, Misfit> {
        list_of(alloc, value)
    }
}

impl Shaped for List<Plugin> {
    ghost shape = { plugins };

    #[tactic(auto, unfolding(crate::specs::Shapes::plugins))]
    fn read(alloc: Global, value: &Value) -> Result<List<Plugin>, Misfit> {
        let values = array_of(value)?;
        if values.len() > MOST_PLUGINS {
            return Err(Misfit::Shape);
        }
        each(alloc, values)
    }
}
