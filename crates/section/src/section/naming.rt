// What a section's entries name.
ghost use Rattle.section.specs.Origins.{bytes_of};
ghost use Rattle.section.specs.Naming.{NamesPlace, ExceptsService};

use super::super::refusal::SectionRefusal;
use super::Section;
use entries::{Tuned, excepts, naming_location};
use station::Place;

impl<'a> Section<'a> {
    // The number of a location entry that names the place.
    pub fn naming_location(&self, place: &Place) -> Result<Option<usize>, SectionRefusal>
        ensures { NamesPlace (bytes_of self.now) place.now result }
    {
        Ok(naming_location(self.locations()?.bytes, place))
    }

    // Whether an exception entry names the service on its path.
    pub fn excepts(&self, tuned: &Tuned) -> Result<bool, SectionRefusal>
        ensures { ExceptsService (bytes_of self.now) tuned.now result }
    {
        Ok(excepts(self.exceptions()?.bytes, tuned))
    }
}
