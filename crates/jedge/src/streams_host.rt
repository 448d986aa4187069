//! A host that reads parts of files, and prints JSON.
ghost use Rattle.std.specs.Prelude.{Ok, map};
ghost use Rattle.jedge.specs.Acts.{DoesFrom};
ghost use Rattle.jedge.specs.Streams.{prints_json, reads_region};

use crate::fault::Fault;
use crate::host::Host;
use jjson::Lines;
use jspare::Region;

/// A host that reads parts of files, and prints JSON.
pub trait StreamsHost: Host {
    /// From here on what is read of the files of these names is this part of each. A file that does
    /// not have all of it can't be read.
    fn read_region(&mut self, region: Region, names: &[&str]) -> Result<(), Fault>
        ensures { DoesFrom (Self.history self.old) (Self.history self.new)
            (reads_region region (map (λ n. n.now) names.now)) result };

    /// From here on what is printed on standard output goes out as JSON, an object for each line.
    fn print_json(&mut self, lines: Lines)
        ensures { DoesFrom (Self.history self.old) (Self.history self.new) (prints_json lines)
            (Ok result) };
}
