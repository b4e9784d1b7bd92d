ghost use Rattle.std.specs.Prelude.{◌≡◌, []};

use path_tree::Tree;
use std::alloc::Global;

/// The most values that a room has which is kept: a call with more of them gives its memory back.
const MOST_VALUES: usize = 8;

/// Room for the values of arguments, from calls that have ended. A call takes one and gives it back,
/// so as many are kept as were open at once.
#[derive(Drop)]
pub struct Rooms {
    free: Vec<Vec<Tree>>,
}

impl Rooms {
    /// None is kept yet.
    pub fn new(alloc: Global) -> Rooms {
        Rooms {
            free: Vec::new(alloc),
        }
    }

    /// A room without values: one that was given back, or a new one.
    pub(crate) fn take(&mut self, alloc: Global) -> Vec<Tree>
        ensures { result.items ≡ [] }
    {
        match self.free.pop() {
            Some(mut room) => {
                if !room.is_empty() {
                    room.clear();
                }
                room
            }
            None => Vec::new(alloc),
        }
    }

    /// Lets the values go, and keeps their room for a next call where there is memory to note it.
    pub(crate) fn give_back(&mut self, room: Vec<Tree>) {
        if room.len() > MOST_VALUES {
            return;
        }
        let mut room = room;
        room.clear();
        let _ = self.free.push(room);
    }
}
