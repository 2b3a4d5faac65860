//! That the registry lists what the table machine has.
ghost use Rattle.tbl_registry.specs.Listed.{ListedFindAlike, NewHandlesAreListed, NewTablesAreListed, LeavesAreListed, DropsAreLeaves, HandlesGoOn};

/// If a registry lists the tables and the handles of a state of Table Services, what is looked
/// up in the state is what the registry finds; and a new handle or a new table of the state is
/// listed once the registry has added it. Does nothing.
pub fn recall_listed()
    ensures found { ListedFindAlike }
    ensures handles { NewHandlesAreListed }
    ensures tables { NewTablesAreListed }
    ensures leaves { LeavesAreListed }
    ensures drops { DropsAreLeaves }
    ensures had { HandlesGoOn }
{}
