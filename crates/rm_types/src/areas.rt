use std::fmt;

/// The five areas of a volume.
#[derive(Clone, Copy, Debug, PartialEq, Eq)]
pub enum Area {
    Master,
    Log,
    Data,
    Space,
    Copy,
}

impl fmt::Display for Area {
    fn fmt<W: fmt::Write>(&self, f: &mut fmt::Formatter<W>) -> fmt::Result {
        f.write_str(match self {
            Area::Master => "master",
            Area::Log => "log",
            Area::Data => "data",
            Area::Space => "space",
            Area::Copy => "copy",
        })
    }
}
