//! The areas of an account.
ghost use Rattle.std.specs.Prelude.{◌≡◌};
ghost use Rattle.mt_path.specs.AccountPath.{area_name, area_number};
ghost use Rattle.mt_path.specs.Names.{area_of};

/// Where a path begins. Areas are ordered as they stand here.
#[derive(Clone, Copy, Debug, PartialEq, Eq, PartialOrd, Ord)]
pub enum Area {
    /// Objects.
    Stor,
    /// Objects too; what sets it apart, reading without signatures, has no effect in this server.
    Public,
    /// Jobs, their inputs and outputs.
    Jobs,
}

impl Area {
    /// The name that stands in a path.
    pub fn name(self) -> &'static str
        ensures { result.now ≡ area_name self }
    {
        match self {
            Area::Stor => "stor",
            Area::Public => "public",
            Area::Jobs => "jobs",
        }
    }

    /// The place in the order, from 0.
    pub fn number(self) -> u8
        ensures { result ≡ area_number self }
    {
        match self {
            Area::Stor => 0,
            Area::Public => 1,
            Area::Jobs => 2,
        }
    }

    /// The area with this name.
    pub fn named(name: &[u8]) -> Option<Area>
        ensures { result ≡ area_of name.now }
    {
        if name == b"stor".as_slice() {
            return Some(Area::Stor);
        }
        if name == b"public".as_slice() {
            return Some(Area::Public);
        }
        if name == b"jobs".as_slice() {
            return Some(Area::Jobs);
        }
        None
    }
}
