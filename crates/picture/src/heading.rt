//! The words above the panels, and the head of the document.
ghost use Rattle.chart.specs.Texts.{Puts};
ghost use Rattle.picture.specs.Sheets.{head_text, margin_text};

use crate::sheet::Sheet;
use chart::{Canvas, SMALL};

/// Puts the head of the document.
pub(crate) fn put_head(canvas: &mut Canvas)
    ensures { Puts canvas.old canvas.new head_text }
{
    canvas.put(concat!(
        "<?xml version=\"1.0\" encoding=\"UTF-8\"?>\n",
        "<svg xmlns=\"http://www.w3.org/2000/svg\" width=\"1000\" height=\"700\" ",
        "viewBox=\"0 0 2000 1400\" role=\"img\" aria-labelledby=\"title desc\" ",
        "font-family=\"DejaVu Sans, Verdana, Arial, sans-serif\">\n",
    ));
}

/// Puts the words above the panels.
pub(crate) fn put_heading(canvas: &mut Canvas, sheet: &Sheet<'_>) {
    canvas.put("<rect width=\"2000\" height=\"1400\" fill=\"#fff\"/>\n");
    canvas.words(
        60,
        68,
        "font-size=\"48\" font-weight=\"bold\" fill=\"#0b6b34\"",
        "yes",
    );
    canvas.begin_words(
        172,
        68,
        "font-size=\"32\" font-weight=\"bold\" fill=\"#111\"",
    );
    put_verdict(canvas, sheet);
    canvas.end_words();
    put_names(canvas, sheet);
    canvas.begin_words(60, 184, SMALL);
    put_numbers(canvas, sheet);
    canvas.end_words();
}

fn put_names(canvas: &mut Canvas, sheet: &Sheet<'_>) {
    canvas.begin_words(60, 116, "font-size=\"26\" fill=\"#111\"");
    canvas.put("session ");
    canvas.name(sheet.session);
    canvas.end_words();
    canvas.begin_words(60, 150, "font-size=\"26\" fill=\"#111\"");
    canvas.put("object ");
    canvas.name(sheet.object);
    canvas.end_words();
}

/// Puts what may be missed.
pub(crate) fn put_verdict(canvas: &mut Canvas, sheet: &Sheet<'_>)
    ensures { Puts canvas.old canvas.new (margin_text sheet.now.margin sheet.now.burst) }
{
    if sheet.margin == 0 {
        canvas.put("there is a datagram that must not be missed");
        return;
    }
    canvas.put("any ");
    canvas.count(sheet.margin, "datagram", "datagrams");
    canvas.put(" may be missed; any ");
    canvas.count(sheet.burst, "neighbour", "neighbours");
}

/// Puts the session's identity and its numbers.
pub(crate) fn put_numbers(canvas: &mut Canvas, sheet: &Sheet<'_>) {
    canvas.put("TSI ");
    canvas.number(sheet.tsi);
    canvas.put(", TOI ");
    canvas.number(sheet.toi);
    canvas.put(": ");
    canvas.count(sheet.datagrams, "datagram", "datagrams");
    canvas.put(", ");
    canvas.count(sheet.blocks.len(), "block", "blocks");
    canvas.put(", object of ");
    canvas.thousands(sheet.object_length);
    canvas.put(if sheet.object_length == 1 {
        " byte"
    } else {
        " bytes"
    });
}
