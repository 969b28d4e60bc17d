//! The exports of a schema.

ghost use Rattle.std.specs.Prelude.{◌≡◌, ◌≤◌, ◌⊎◌, true, false, MatchOption, MatchResult, length, take, Some, None};
ghost use Rattle.dspec_c.specs.{Handles.held_in, Handles.is_full, SessionCalls.LooksAtSchema, SessionCalls.StampAnswers, SessionCalls.new_schema, Widths.EnableAnswers, Widths.Enables};
ghost use Rattle.dspec_c.specs.{Widths.EnablesSo, Widths.enable_fault, Widths.field_of_width, Widths.fields_of_widths};
ghost use Rattle.dspec_c.specs.declared.held.HandleValue.TheVariants as held_as;

use crate::boxed::Boxed;
use crate::handle::{Handle, HandleContents, lent};
use crate::held::HandleValue;
use crate::statuses::{
    BAD_HANDLE, BAD_WIDTH, FULL_HANDLE, NO_MEMORY, OK, TOO_MANY_ENABLINGS, TOO_MANY_FIELDS,
};
use dspec_record::{Enablings, Field, SchemaFault};
use std::alloc::Global;

/// The version, as the header has it: the major number from bit 16 on, the minor one from bit 8 on.
const VERSION: u32 = 256;

/// The library's version.
#[unsafe(no_mangle)]
pub extern "C" fn dspec_version() -> u32
    ensures { result ≡ 256 }
{
    VERSION
}

/// A schema without enablings.
#[unsafe(no_mangle)]
pub extern "C" fn dspec_schema_new(alloc: Global, schema: &mut Handle) -> u32
    ensures full { is_full schema.old ≡ true → (result ≡ 18) × (schema.new ≡ schema.old) }
    ensures made { result ≡ 0 → (is_full schema.new ≡ true) × (held_in schema.new ≡ held_as.Schema new_schema) }
    ensures kept { result ≡ 7 → schema.new ≡ schema.old }
    ensures either { is_full schema.old ≡ false → (result ≡ 0) ⊎ (result ≡ 7) }
{
    if schema.is_held() {
        return FULL_HANDLE;
    }
    let Ok(made) = Boxed::new(alloc, Enablings::new()) else {
        return NO_MEMORY;
    };
    let Ok(room) = HandleContents::room(alloc) else {
        return NO_MEMORY;
    };
    schema.put(room, HandleValue::Schema(made));
    OK
}

fn field_of(width: u8) -> Option<Field>
    ensures { result ≡ field_of_width width }
{
    match width {
        1 => Some(Field::One),
        2 => Some(Field::Two),
        4 => Some(Field::Four),
        8 => Some(Field::Eight),
        _ => None,
    }
}

// The fields of these widths, the first of eight.
fn fields_of(widths: &[u8]) -> Option<[Field; 8]>
    requires { length widths.now ≤ 8 }
    ensures { MatchOption result (fields_of_widths widths.now ≡ None)
        (λ fields. fields_of_widths widths.now ≡ Some (take (length widths.now) fields)) }
{
    let mut fields = [Field::One; 8];
    for place in 0..widths.len() {
        let Some(field) = field_of(widths[place]) else {
            return None
        };
        fields[place] = field;
    }
    Some(fields)
}

fn enable(schema: &mut Enablings, widths: &[u8]) -> Result<u32, u32>
    ensures { MatchResult result (λ epid. Enables widths.now epid schema.old schema.new)
        (λ why. (enable_fault widths.now schema.old ≡ Some why) × (schema.new ≡ schema.old)) }
{
    if widths.len() > 8 {
        return Err(TOO_MANY_FIELDS);
    }
    let Some(fields) = fields_of(widths) else {
        return Err(BAD_WIDTH)
    };
    match schema.enable(&fields[..widths.len()]) {
        Ok(epid) => Ok(epid),
        Err(SchemaFault::TooManyFields) => Err(TOO_MANY_FIELDS),
        Err(SchemaFault::TooManyEnablings) => Err(TOO_MANY_ENABLINGS),
    }
}

fn enable_told(schema: &mut Enablings, widths: &[u8], epid: &mut u32) -> u32
    ensures { EnablesSo widths.now (enable_fault widths.now schema.old) schema.old result epid.old epid.new schema.new }
{
    match enable(schema, widths) {
        Ok(number) => {
            *epid = number;
            OK
        }
        Err(why) => why,
    }
}

/// The schema in a handle, as it is now.
pub fn schema_in(schema: &mut Handle) -> Option<Enablings>
    ensures looks { LooksAtSchema (held_in schema.old) result (held_in schema.new) }
    ensures stays { is_full schema.new ≡ is_full schema.old }
{
    lent!(schema as Schema(boxed), None => Some(*boxed.lend()))
}

/// Enables records with fields of these widths.
#[unsafe(no_mangle)]
pub extern "C" fn dspec_schema_enable(schema: &mut Handle, widths: &[u8], epid: &mut u32) -> u32
    ensures answers { EnableAnswers widths.now (held_in schema.old) result epid.old epid.new (held_in schema.new) }
    ensures stays { is_full schema.new ≡ is_full schema.old }
{
    lent!(schema as Schema(boxed), BAD_HANDLE => enable_told(boxed.lend(), widths, epid))
}

/// Records have a stamp from now on.
#[unsafe(no_mangle)]
pub extern "C" fn dspec_schema_stamp(schema: &mut Handle) -> u32
    ensures answers { StampAnswers (held_in schema.old) result (held_in schema.new) }
    ensures stays { is_full schema.new ≡ is_full schema.old }
{
    lent!(schema as Schema(boxed), BAD_HANDLE => {
        let schema = boxed.lend();
        *schema = schema.stamped();
        OK
    })
}
