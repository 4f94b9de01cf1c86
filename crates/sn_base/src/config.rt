//! The sizes of a machine.
ghost use Rattle.std.specs.Prelude.{◌≡◌};
ghost use Rattle.sn_base.specs.Config.{config_fits};

/// How many nodes a machine has, how many sets and ways each cache, and how many entries each log holds.
#[derive(Clone, Copy, PartialEq, Eq, Debug)]
pub struct Config {
    pub nodes: u8,
    pub sets: u16,
    pub ways: u8,
    pub log: u16,
}

impl Config {
    /// Whether the four numbers lie in their ranges: 1 to 16 nodes, 1 to 256 sets, 1 to 16 ways, and a log of
    /// 4 to 4,096 entries.
    pub fn fits(&self) -> bool
        ensures { result ≡ config_fits self.now }
    {
        (1..=16).contains(&self.nodes)
            && (1..=256).contains(&self.sets)
            && (1..=16).contains(&self.ways)
            && (4..=4096).contains(&self.log)
    }
}
