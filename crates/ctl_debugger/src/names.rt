//! The slots of names.

ghost use Rattle.std.specs.Prelude.{◌≡◌, ◌<◌, length, position, IfSome};
ghost use Rattle.il_model.specs.Kinds.{field_name};
ghost use Rattle.il_model.specs.Words.{split_last};
ghost use Rattle.il_values.specs.Spelled.{spells};
ghost use Rattle.ctl_model.specs.Slots.{location_slot, variable_slot, instance_slot, field_slot, dotted_slot};
ghost use Rattle.ctl_model.specs.Slots.{slot_number, slot_of, dialect_by};
ghost use Rattle.il_model.specs.Image.{version_of};

use il_loader::Image;
use il_model::{
    CodedOperand, Dialect, Field, Instance, MOST_INSTANCES, Slot, Variable, Version, is_spelled,
    split_last,
};

/// The dialect that has the locations of an image: the extended one where the image is of the third version.
fn dialect(image: &Image) -> Dialect
    ensures { result ≡ dialect_by (version_of image.now) }
{
    match image.version() {
        Version::One | Version::Two => Dialect::Plain,
        Version::Three => Dialect::Extended,
    }
}

fn location_slot(image: &Image, name: &[u8]) -> Option<u16>
    ensures { result ≡ location_slot image.now name.now }
{
    let found = dialect(image).location(name)?;
    Some(found.code() as u16)
}

fn variable_named(variables: &[Variable], name: &[u8]) -> Option<usize>
    ensures value { result ≡ position (λ v. spells v.name name.now) variables.now }
    ensures bound { IfSome result (λ i. i < length variables.now) }
{
    variables
        .iter()
        .position(|variable| is_spelled(variable.name.bytes(), name))
}

fn variable_slot(image: &Image, name: &[u8]) -> Option<u16>
    ensures { result ≡ variable_slot image.now name.now }
{
    image.know_lawful();
    let i = variable_named(image.variables(), name)?;
    Some(CodedOperand::Variable(i as u16).code() as u16)
}

fn instance_named(instances: &[Instance], name: &[u8]) -> Option<usize>
    ensures value { result ≡ position (λ x. spells x.name name.now) instances.now }
    ensures bound { IfSome result (λ i. i < length instances.now) }
{
    instances
        .iter()
        .position(|instance| is_spelled(instance.name.bytes(), name))
}

fn field_named(fields: &[Field], name: &[u8]) -> Option<usize>
    ensures value { result ≡ position (λ field. spells (field_name field) name.now) fields.now }
    ensures bound { IfSome result (λ n. n < length fields.now) }
{
    fields
        .iter()
        .position(|field| is_spelled(field.name(), name))
}

fn instance_slot(i: usize, instance: &Instance, field: &[u8]) -> Option<u16>
    requires { i < MOST_INSTANCES }
    ensures { result ≡ instance_slot i field.now instance.now }
{
    let n = field_named(instance.kind.fields(), field)?;
    let coded = CodedOperand::Field {
        instance: i as u16,
        field: n as u8,
    };
    Some(coded.code() as u16)
}

fn field_slot(image: &Image, name: &[u8], field: &[u8]) -> Option<u16>
    ensures { result ≡ field_slot image.now name.now field.now }
{
    image.know_lawful();
    let instances = image.instances();
    let i = instance_named(instances, name)?;
    instance_slot(i, &instances[i], field)
}

fn dotted_slot(image: &Image, name: &[u8]) -> Option<u16>
    ensures { result ≡ dotted_slot image.now (split_last name.now) }
{
    let (front, field) = split_last(name)?;
    field_slot(image, front, field)
}

fn slot_number(image: &Image, name: &[u8]) -> Option<u16>
    ensures { result ≡ slot_number image.now name.now }
{
    if let [b'%', ..] = name {
        return location_slot(image, name);
    }
    match variable_slot(image, name) {
        None => dotted_slot(image, name),
        found => found,
    }
}

/// The slot of the location (`%IX0.3`; in a program of the third version also `%ID4`, which is read as DINT), of the
/// variable that a name is as a whole (`M7.STARTS`), else of the instance's field (`T1.Q`), without regard to case
/// (IEC 61131-3:2003, 2.4.1.1 and 2.5.2); None exactly where the name is none of these. The slot is the operand's code
/// in the image; variables and instances are numbered from 0 as they are declared. It takes no memory.
pub fn slot(image: &Image, name: &[u8]) -> Option<Slot>
    ensures { result ≡ slot_of image.now name.now }
{
    let number = slot_number(image, name)?;
    Some(Slot(number))
}
