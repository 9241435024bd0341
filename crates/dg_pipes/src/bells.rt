//! How the two threads of a ring wake each other.
use dg_gate::GateFault;
use std::alloc::Global;
use std::sync::Arc;
use std::thread::Parker;

/// The reader thread sleeps where the ring is full, the judging thread where it is empty. Each
/// wakes the other. No contract says when either wakes: both look again after a while.
#[derive(Drop)]
pub struct Bells {
    /// The judging thread parks here until something came.
    pub came: Parker,
    /// The reader thread parks here until there is room.
    pub room: Parker,
}

impl Bells {
    /// Nobody sleeps.
    pub fn new() -> Bells {
        Bells {
            came: Parker::new(),
            room: Parker::new(),
        }
    }

    /// The bells of a ring, once for each of its two threads.
    pub(crate) fn shared(alloc: Global) -> Result<(Arc<Bells>, Arc<Bells>), GateFault> {
        let Ok(bells) = Arc::new(alloc, Bells::new()) else {
            return Err(GateFault::Memory);
        };
        match Arc::try_clone(&bells) {
            Ok(theirs) => Ok((bells, theirs)),
            Err(_) => Err(GateFault::Memory),
        }
    }
}

impl Default for Bells {
    fn default() -> Bells {
        Bells::new()
    }
}
