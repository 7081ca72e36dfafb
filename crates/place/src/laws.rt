// Laws of placements: each is a function without code, whose contract is the law.
ghost use Rattle.place.specs.Plain.{PlainPlaces};

// Where the fabric has room for the cells, the plain placement gives each a place of its own.
pub fn plain_places()
    ensures { PlainPlaces }
{}
