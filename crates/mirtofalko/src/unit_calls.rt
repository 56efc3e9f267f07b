// The calls of the unit: on a map, a store, a reset image and a state of 96 bytes.
ghost use Rattle.faces.specs.Promises.{CheckFacePromise, LookFacePromise, FindFacePromise, StartFacePromise};
ghost use Rattle.faces.specs.Promises.{CompareFacePromise, SessionFacePromise, FrameFacePromise, PowerOnFacePromise};
ghost use Rattle.faces.specs.Promises.{RunFacePromise};

// The number of map, store and reset image: 7 to 11, or 0.
#[unsafe(no_mangle)]
pub extern "C" fn mf_check(map: &[u8], store: &[u8], image: &[u8]) -> u32
    ensures { CheckFacePromise map.now store.now image.now result }
{
    faces::check_face(map, store, image)
}

// Number, width and store offset of the value that begins at the bank and location.
#[unsafe(no_mangle)]
pub extern "C" fn mf_look(map: &[u8], store: &[u8], bank: u32, location: u32) -> u32
    ensures { LookFacePromise map.now store.now bank location result }
{
    faces::look_face(map, store, bank, location)
}

// Which value holds the location, or why none does.
#[unsafe(no_mangle)]
pub extern "C" fn mf_find(map: &[u8], bank: u32, location: u32) -> u64
    ensures { FindFacePromise map.now bank location result }
{
    faces::find_face(map, bank, location)
}

// The list of the values that differ between two stores, over the output.
#[unsafe(no_mangle)]
pub extern "C" fn mf_compare(map: &[u8], old: &[u8], new: &[u8], output: &mut [u8]) -> u32
    ensures { CompareFacePromise map.now old.now new.now output.old
        result output.new }
{
    faces::compare_face(map, old, new, output)
}

// The frames that write a value, in the lent array.
#[unsafe(no_mangle)]
pub extern "C" fn mf_session(
    map: &[u8],
    address: u32,
    bank: u32,
    location: u32,
    bytes: &[u8],
    frames: &mut [u32; 13],
) -> u32
    ensures { SessionFacePromise map.now address bank location bytes.now result frames.new }
{
    faces::session_face(map, address, bank, location, bytes, frames)
}

// A state is made, and the store as a power-on leaves it.
#[unsafe(no_mangle)]
pub extern "C" fn mf_start(
    map: &[u8],
    store: &mut [u8],
    image: &[u8],
    address: u32,
    groups: u32,
    state: &mut [u8; 96],
) -> u32
    ensures { StartFacePromise map.now store.old image.now
        address groups result state.new store.new }
{
    faces::start_face(map, store, image, address, groups, state)
}

// A frame, heard at a clock.
#[unsafe(no_mangle)]
pub extern "C" fn mf_frame(
    map: &[u8],
    store: &mut [u8],
    image: &[u8],
    state: &mut [u8; 96],
    frame: u32,
    clock: u32,
) -> u32
    ensures { FrameFacePromise map.now store.old image.now state.old
        frame clock result state.new store.new }
{
    faces::frame_face(map, store, image, state, frame, clock)
}

// A later power-on.
#[unsafe(no_mangle)]
pub extern "C" fn mf_power_on(
    map: &[u8],
    store: &mut [u8],
    image: &[u8],
    state: &mut [u8; 96],
) -> u32
    ensures { PowerOnFacePromise map.now store.old image.now state.old
        result state.new store.new }
{
    faces::power_on_face(map, store, image, state)
}

// Many records, with one check. Bytes that are no state's are refused like a state that breaks a rule.
#[unsafe(no_mangle)]
pub extern "C" fn mf_run(
    map: &[u8],
    store: &mut [u8],
    image: &[u8],
    state: &mut [u8; 96],
    records: &[u8],
    output: &mut [u8],
) -> usize
    ensures { RunFacePromise map.now store.old image.now state.old
        records.now output.old
        result state.new store.new output.new }
{
    faces::run_face(map, store, image, state, records, output)
}
