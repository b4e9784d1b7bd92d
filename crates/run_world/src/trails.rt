use base::Text;
use pan_ast::Place;
use std::alloc::{AllocError, Global};
use std::cell::Cell;
use std::collections::HashMap;

/// The calls and includes inside which runs ended with a fault. They stand in cells, as no answer depends on
/// them; where memory is wanting some are left out.
#[derive(Drop)]
pub struct Trails {
    alloc: Global,
    /// Those that the present run has left early, the innermost first.
    present: Cell<Vec<Place>>,
    /// Those of each object whose last run had a fault.
    by_object: Cell<HashMap<Text, Vec<Place>>>,
}

impl Trails {
    /// Nothing was run yet.
    pub fn new(alloc: Global) -> Trails {
        Trails {
            alloc,
            present: Cell::new(Vec::new(alloc)),
            by_object: Cell::new(HashMap::new(alloc)),
        }
    }

    /// A run begins.
    pub fn begin(&self) {
        self.present.set(Vec::new(self.alloc));
    }

    /// The run leaves the call or include at a place early.
    pub fn note(&self, place: &Place) {
        let mut places = self.present.replace(Vec::new(self.alloc));
        if let Ok(place) = place.share() {
            let _ = places.push(place);
        }
        self.present.set(places);
    }

    fn keep(
        &self,
        by_object: &mut HashMap<Text, Vec<Place>>,
        object: &str,
        has_fault: bool,
    ) -> Result<(), AllocError> {
        if by_object.is_empty() && !has_fault {
            return Ok(());
        }
        let object = Text::new(self.alloc, object)?;
        let places = self.present.replace(Vec::new(self.alloc));
        if has_fault {
            by_object.insert(object, places)?;
        } else {
            by_object.remove(&object);
        }
        Ok(())
    }

    /// The run of an object has ended, with a fault or without one.
    pub fn end(&self, object: &str, has_fault: bool) {
        let mut by_object = self.by_object.replace(HashMap::new(self.alloc));
        let _ = self.keep(&mut by_object, object, has_fault);
        self.by_object.set(by_object);
    }

    /// Takes out the places of an object whose last run had a fault; none where it had none.
    pub fn take(&self, object: &str) -> Option<Vec<Place>> {
        let Ok(object) = Text::new(self.alloc, object) else {
            return None;
        };
        let mut by_object = self.by_object.replace(HashMap::new(self.alloc));
        let places = by_object.remove(&object);
        self.by_object.set(by_object);
        places
    }
}
