// The table of rooms.
ghost use Rattle.std.specs.Prelude.{◌≡◌, length};
ghost use Rattle.result_form.specs.ResultShows.{show_result};
ghost use Rattle.c_answers.specs.Numbers.{checked, Gives};
ghost use Rattle.phrases.specs.Says.{Says, sentence_max};
ghost use Rattle.sentences.specs.Sentences.{table_words};
ghost use Rattle.room_form.specs.Table.{room_at, visit_in};
ghost use Rattle.room_form.specs.Calls.{clear_status, cleared, lowest_free, next_visit, open_status, open_answer, opened};
ghost use Rattle.room_form.specs.Calls.{held_status, after_step, stepped, closed};
ghost use Rattle.floodrafter_c.specs.Screens.{opened_by};

use c_answers::Answer;
use floodrafter_c::screens::Opened;

#[unsafe(no_mangle)]
pub extern "C" fn floodrafter_room_clear(table: &mut [u8]) -> Answer
    ensures answer { result ≡ checked (clear_status table.old) }
    ensures table { table.new ≡ cleared table.old }
{
    floodrafter_c::screens::floodrafter_room_clear(table)
}

#[unsafe(no_mangle)]
pub extern "C" fn floodrafter_room_open(table: &mut [u8], text: &[u8]) -> Opened
    ensures answer { result ≡ opened_by (open_answer (open_status table.old text.now)
        (lowest_free table.old) (next_visit table.old)) }
    ensures table { table.new ≡ opened table.old text.now }
{
    floodrafter_c::screens::floodrafter_room_open(table, text)
}

#[unsafe(no_mangle)]
pub extern "C" fn floodrafter_room_step(
    table: &mut [u8],
    slot: u64,
    visit: u64,
    out: &mut [u8],
) -> Answer
    ensures answer { Gives (held_status table.old slot visit)
        (show_result (after_step table.old slot)) out.old out.new result }
    ensures table { table.new
        ≡ stepped table.old slot visit (length out.old) }
{
    floodrafter_c::screens::floodrafter_room_step(table, slot, visit, out)
}

#[unsafe(no_mangle)]
pub extern "C" fn floodrafter_room_reading(
    table: &[u8],
    slot: u64,
    visit: u64,
    out: &mut [u8],
) -> Answer
    ensures { Gives (held_status table.now slot visit)
        (show_result (visit_in (room_at table.now slot)).reading) out.old out.new result }
{
    floodrafter_c::screens::floodrafter_room_reading(table, slot, visit, out)
}

#[unsafe(no_mangle)]
pub extern "C" fn floodrafter_room_close(table: &mut [u8], slot: u64, visit: u64) -> Answer
    ensures answer { result ≡ checked (held_status table.old slot visit) }
    ensures table { table.new ≡ closed table.old slot visit }
{
    floodrafter_c::screens::floodrafter_room_close(table, slot, visit)
}

#[unsafe(no_mangle)]
pub extern "C" fn floodrafter_room_explain(fault: u64, out: &mut [u8]) -> usize
    ensures { Says sentence_max out.old out.new 0 result (table_words fault) }
{
    floodrafter_c::screens::floodrafter_room_explain(fault, out)
}
