// What the functions do that a program in C links: `spoonglacier_c` exports them, and
// include/spoonglacier.h declares them.
#![tactic(auto)]

ghost use Rattle.fixed.specs.Fixed.{from_bits};
ghost use Rattle.script.specs.Script.{script_of};
ghost use Rattle.writer.specs.ToWrite.{given};
ghost use Rattle.writer.specs.ParamWords.{params_in};
ghost use Rattle.writer.specs.Refusals.{write_of};
ghost use Rattle.overlay.specs.Seen.{seen_of};
ghost use Rattle.labels.specs.Labels.{label, labels_of};
ghost use Rattle.spoonglacier.specs.Exported.{Returned, WriteReturned, EdgesReturned, LabelsReturned};

use fixed::Fixed;

// Runs a script into a lent output; answers 01's number, and leaves its place behind the last
// pointer.
pub fn spoonglacier_run(script: &[u8], out: &mut [i32], place: &mut usize) -> u32
    ensures { Returned (script_of script.now out.old) result out.new place.new }
{
    let answer = script::run_script(script, out);
    *place = words::place(answer);
    words::code(answer)
}

// Writes a script into a lent buffer; answers the writer's number, and leaves the bytes that were
// written and the place behind the last two pointers.
pub fn spoonglacier_write(
    scale: i32,
    params: &[i32],
    commands: &[i32],
    masks: &[u8],
    script: &mut [u8],
    written: &mut usize,
    place: &mut usize,
) -> u32
    ensures { WriteReturned
        (write_of (given (from_bits scale) (params_in params.now) commands.now masks.now) script.old)
        result script.new written.new place.new }
{
    let scale = Fixed { bits: scale };
    let wrote = writer::write_script(scale, writer::params_from(params), commands, masks, script);
    *written = writer::written(wrote);
    *place = writer::place(wrote);
    writer::code(wrote)
}

// Lists the edges of the map that a script has after its first so many commands, six words a
// record; answers the look's number, and leaves the summary's four counts and the place behind the
// last five pointers.
pub fn spoonglacier_edges(
    script: &[u8],
    commands: usize,
    list: &mut [i32],
    edges: &mut usize,
    pairs: &mut usize,
    ghosts: &mut usize,
    locked: &mut usize,
    place: &mut usize,
) -> u32
    ensures { EdgesReturned (seen_of script.now commands list.old)
        result list.new edges.new pairs.new ghosts.new locked.new place.new }
{
    let seen = overlay::see_edges(script, commands, list);
    let summary = overlay::summary(seen);
    *edges = summary.edges;
    *pairs = summary.pairs;
    *ghosts = summary.ghosts;
    *locked = summary.locked;
    *place = overlay::place(seen);
    overlay::code(seen)
}

// Hints the glyphs of a label into one result; answers the label run's number, and leaves the words
// of the result, the glyph and the place behind the last three pointers.
pub fn spoonglacier_labels(
    scale: i32,
    params: &[i32],
    commands: &[i32],
    masks: &[u8],
    lengths: &[i32],
    out: &mut [i32],
    written: &mut usize,
    glyph: &mut usize,
    place: &mut usize,
) -> u32
    ensures { LabelsReturned
        (labels_of (label (from_bits scale) (params_in params.now) commands.now masks.now lengths.now) out.old)
        result out.new written.new glyph.new place.new }
{
    let scale = Fixed { bits: scale };
    let labelled = labels::run_labels(
        scale,
        writer::params_from(params),
        commands,
        masks,
        lengths,
        out,
    );
    *written = labels::written(labelled);
    *glyph = labels::glyph(labelled);
    *place = labels::place(labelled);
    labels::code(labelled)
}
