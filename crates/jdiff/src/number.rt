//! The numbers of devices.

ghost use Rattle.std.specs.Prelude.{◌≡◌, ◌+◌, ◌≤◌, ◌++◌, [], length, map, option_map};
ghost use Rattle.flashbase.specs.Sinks.{PutsTo};
ghost use Rattle.jmount.specs.Device.{major_and_minor};
ghost use Rattle.jdiff.specs.Changes.{is_same_number, number_differs_line, number_of_device, number_shown, numbers_shown};

use byteorder::{BigEndian, LittleEndian};
use flashbase::{DeviceFault, Sink};
use jline::{LineBuffer, MAX_LINE, put_path, put_text};
use jmount::{DeviceBytes, Object};
use jnode::Endian;

/// The major and the minor number of a device.
pub(crate) type Number = (u16, u32);

fn read_number(order: Endian, bytes: DeviceBytes) -> Number
    ensures { result ≡ major_and_minor order bytes }
{
    match order {
        Endian::Little => bytes.major_and_minor::<LittleEndian>(),
        Endian::Big => bytes.major_and_minor::<BigEndian>(),
    }
}

/// The number of an object, if it is a device that has one.
pub(crate) fn number_of_device(order: Endian, object: &Object) -> Option<Number>
    ensures { result ≡ number_of_device order object.now }
{
    let bytes = object.device?;
    Some(read_number(order, bytes))
}

/// Whether two devices have one number, or neither has any.
pub(crate) fn is_same_number(left: Option<Number>, right: Option<Number>) -> bool
    ensures { result ≡ is_same_number left right }
{
    match (left, right) {
        (None, None) => true,
        (Some(ours), Some(theirs)) => ours.0 == theirs.0 && ours.1 == theirs.1,
        (Some(_), None) | (None, Some(_)) => false,
    }
}

#[tactic(auto, using(std::proofs::Common::append_assoc))]
fn push_number_of(line: &mut LineBuffer, number: Option<Number>)
    requires { length line.old + 41 ≤ MAX_LINE }
    ensures text { line.new ≡ line.old ++ number_shown number }
    ensures grows { length line.new ≤ length line.old + 41 }
{
    let Some((major, minor)) = number else {
        line.push_text(b"none");
        return;
    };
    line.push_decimal(u64::from(major));
    line.push(b':');
    line.push_decimal(u64::from(minor));
}

#[tactic(auto, using(std::proofs::Common::append_assoc))]
fn write_numbers(line: &mut LineBuffer, left: Option<Number>, right: Option<Number>)
    requires { line.old ≡ [] }
    ensures { line.new ≡ numbers_shown left right }
{
    line.push_text(b" device ");
    push_number_of(line, left);
    line.push_text(b" to ");
    push_number_of(line, right);
    line.push_text(b"\n");
}

/// Puts the line of a device whose number differs.
pub(crate) fn put_numbers<T: Sink>(
    path: &[&[u8]],
    left: Option<Number>,
    right: Option<Number>,
    sink: &mut T,
) -> Result<(), DeviceFault>
    ensures { PutsTo T.Sink sink.old sink.new
        (number_differs_line (map (λ name. name.now) path.now) left right) result }
{
    let mut line = LineBuffer::new();
    write_numbers(&mut line, left, right);
    put_text(sink, b"* ")?;
    put_path(sink, path)?;
    put_text(sink, line.as_slice())
}
