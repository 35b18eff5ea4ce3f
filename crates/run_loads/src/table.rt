// What a load goes by, laid out once.
ghost use Rattle.std.specs.Prelude.{◌≡◌, ◌+◌};
ghost use Rattle.run_loads.specs.Taking.{JunctionsInside, LinksInside};

use run_tables::NodeList;

// How many links there are, and at which node each starts and ends; the junctions; and of each node whether it is a tank, which is 1, else 0.
#[repr(C)]
#[derive(Clone, Copy)]
pub struct LoadTable {
    pub links: usize,
    pub junctions: NodeList,
    pub starts: [u32; 384],
    pub ends: [u32; 384],
    pub tanks: [u32; 256],
    pub ghost junctions_inside: { JunctionsInside junctions.nodes links junctions.count },
    pub ghost links_inside: { LinksInside starts ends links },
}

impl LoadTable {
    // How many numbers a load has.
    pub fn count(&self) -> usize
        ensures { result ≡ self.now.links + self.now.junctions.count }
    {
        self.links + self.junctions.count
    }
}
