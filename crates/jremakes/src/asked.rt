//! What is asked of a command that makes an image of another one.

use jcommand::Options;
use jmakes::wanted::Wanted;

/// The image of a name, and the file that is made of it. With `force` it may be the same, whatever
/// is found in it.
#[derive(Clone, Copy)]
pub struct Remaking<'a> {
    pub options: Options,
    pub force: bool,
    pub image: &'a str,
    pub output: Wanted<'a>,
}
