//! What the definitions say, as functions that do nothing and whose contracts are the laws.

ghost use Rattle.client_patch.specs.Known.{MoreStampsAreKnown};
ghost use Rattle.client_patch.specs.Padded.{BytesOfTheMapArePadded};

/// Where a directory has the bytes of the map, its stamps have zeros behind the end of their objects.
pub fn bytes_of_the_map_are_padded()
    ensures { BytesOfTheMapArePadded }
{}

/// More stamps change nothing of what a write knows of the old bytes that it keeps.
pub fn more_stamps_are_known()
    ensures { MoreStampsAreKnown }
{}
