// Objects, streams, objects in the file, and trailers.
ghost use Rattle.locality.specs.LocalityFrames.{FramesAreLocal, WrittenObjectsReadBack};
ghost use Rattle.locality.specs.LocalityObjects.{ObjectsAreLocal};
ghost use Rattle.locality.specs.LocalityTrailers.{CopiedTrailersReadBack, TrailersAreLocal};

// An object that was read is read again before any bytes that do not lengthen it, and from any place.
pub fn objects_are_local()
    ensures { ObjectsAreLocal }
{}

// A body, an object or a stream, and an object in the file that were read are read again before any bytes that do not lengthen them.
pub fn frames_are_local()
    ensures { FramesAreLocal }
{}

// What is written of an object that may be put reads back as that object.
pub fn written_objects_read_back()
    ensures { WrittenObjectsReadBack }
{}

// A trailer's dictionary that was read is read again before any bytes, and from any place.
pub fn trailers_are_local()
    ensures { TrailersAreLocal }
{}

// What is written of a trailer whose entries are copied reads back as those entries, with the new Size and Prev.
pub fn copied_trailers_read_back()
    ensures { CopiedTrailersReadBack }
{}
