//! The shape of each operation: what the words after its name stand for.

ghost use Rattle.std.specs.Prelude.{◌≡◌, option_map};
ghost use Rattle.jlisting.specs.Broken.{operands_of, operation_operands};

use crate::rule::Operand;
use crate::words::is_word;

const NUMBER: Operand = Operand::Number(4294967295);

const OWNER: Operand = Operand::Number(65535);

/// `attr MODE UID GID ATIME MTIME PATH`
const ATTR: [Operand; 6] = [Operand::Mode, OWNER, OWNER, NUMBER, NUMBER, Operand::Text];

/// `device KIND MODE MAJOR MINOR PATH`
const DEVICE: [Operand; 5] = [
    Operand::DeviceKind,
    Operand::Mode,
    Operand::Number(4095),
    Operand::Number(1048575),
    Operand::Text,
];

/// The words after a name, if it is that of an operation.
#[tactic(auto, unfolding(crate::specs::Broken::operation_operands))]
fn operation_operands(name: &[u8]) -> Option<&'static [Operand]>
    ensures { option_map (λ operands. operands.now) result ≡ operation_operands name.now }
{
    if is_word(name, b"mkdir") {
        Some(&[Operand::Mode, Operand::Text])
    } else if is_word(name, b"create") {
        Some(&[Operand::Mode, Operand::Text])
    } else if is_word(name, b"fifo") {
        Some(&[Operand::Mode, Operand::Text])
    } else if is_word(name, b"socket") {
        Some(&[Operand::Mode, Operand::Text])
    } else if is_word(name, b"file") {
        Some(&[Operand::Mode, Operand::Text, Operand::EscapedName])
    } else if is_word(name, b"put") {
        Some(&[Operand::Mode, Operand::Text, Operand::EscapedName])
    } else if is_word(name, b"device") {
        Some(&DEVICE)
    } else if is_word(name, b"symlink") {
        Some(&[Operand::Text, Operand::Text])
    } else if is_word(name, b"link") {
        Some(&[Operand::Text, Operand::Text])
    } else if is_word(name, b"rename") {
        Some(&[Operand::Text, Operand::Text])
    } else if is_word(name, b"replace") {
        Some(&[Operand::Text, Operand::Text])
    } else if is_word(name, b"write") {
        Some(&[Operand::Text, NUMBER, Operand::Data])
    } else if is_word(name, b"part") {
        Some(&[Operand::Text, NUMBER, Operand::FileName])
    } else if is_word(name, b"truncate") {
        Some(&[Operand::Text, NUMBER])
    } else if is_word(name, b"remove") {
        Some(&[Operand::Text])
    } else if is_word(name, b"remove-if") {
        Some(&[Operand::Text])
    } else if is_word(name, b"attr") {
        Some(&ATTR)
    } else {
        None
    }
}

/// And of a setting.
#[tactic(auto, unfolding(crate::specs::Broken::operands_of))]
pub fn operands_of(name: &[u8]) -> Option<&'static [Operand]>
    ensures { option_map (λ operands. operands.now) result ≡ operands_of name.now }
{
    if is_word(name, b"time") {
        Some(&[NUMBER])
    } else if is_word(name, b"owner") {
        Some(&[OWNER, OWNER])
    } else {
        operation_operands(name)
    }
}
