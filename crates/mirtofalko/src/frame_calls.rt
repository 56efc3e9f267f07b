// The calls on frames alone.
ghost use Rattle.faces.specs.Promises.{ReadFacePromise, WriteFacePromise};
ghost use Rattle.faces.specs.Promises.{ComposeEventFacePromise, ComposePowerFacePromise};

// The message word of a frame.
#[unsafe(no_mangle)]
pub extern "C" fn mf_read(frame: u32) -> u64
    ensures { ReadFacePromise frame result }
{
    faces::read_face(frame)
}

// The frame of a message word.
#[unsafe(no_mangle)]
pub extern "C" fn mf_write(word: u64) -> u32
    ensures { WriteFacePromise word result }
{
    faces::write_face(word)
}

// The frame of an event. The fields are wider than their ranges, so that none is cut to fit.
#[unsafe(no_mangle)]
pub extern "C" fn mf_compose_event(
    sort: u32,
    number: u32,
    primary: u32,
    short: u32,
    groups: u32,
    information: u32,
    scheme: u32,
) -> u32
    ensures { ComposeEventFacePromise sort number primary short groups information scheme result }
{
    faces::compose_event_face(sort, number, primary, short, groups, information, scheme)
}

// The frame of a power event.
#[unsafe(no_mangle)]
pub extern "C" fn mf_compose_power(short: u32, groups: u32) -> u32
    ensures { ComposePowerFacePromise short groups result }
{
    faces::compose_power_face(short, groups)
}
