//! How what a picture shows looks: a style for each class, the heads of arrows, and the hatching.

use crate::pen::Pen;
use crate::shapes::head;

const STYLES: &[u8] = b"<style>text{font:13px sans-serif;fill:#222}.name{font-weight:bold}\
.number,.again-name,.legend{font-size:11px}\
.number{text-anchor:middle;stroke:#fff;stroke-width:3;paint-order:stroke}\
.life{stroke:#222;stroke-width:2}\
.message,.knowledge{stroke:#1f5fa8;stroke-width:1.5;marker-end:url(#blue)}.knowledge{marker-end:url(#blue-mark)}\
.family{stroke:#222;stroke-width:1.5;stroke-dasharray:5 4;marker-end:url(#black)}.birth{marker-end:url(#black-mark)}\
.again{stroke:#c2185b;stroke-width:3;marker-end:url(#pink)}\
.again-name{font-weight:bold;fill:#c2185b;stroke:#fff;stroke-width:3;paint-order:stroke}\
.open{stroke:#1f5fa8;stroke-width:1.5}.end{fill:#fff;stroke:#1f5fa8;stroke-width:1.5}\
.mark,.event{fill:#222;stroke:#222;stroke-width:2}.hollow{fill:#fff}.event{stroke:none}\
.undone{stroke:#bbb}.mark.undone,.event.undone{fill:#bbb}.hollow.undone,.end.undone{fill:#fff}\
.message.undone,.family.undone{marker-end:url(#grey)}.knowledge.undone,.birth.undone{marker-end:url(#grey-mark)}\
.obsolete{fill:url(#hatch)}.failure{stroke:#b3261e;stroke-width:3}\
.recovery{fill:none;stroke:#2e7d32;stroke-width:4;stroke-linejoin:round}\
.settled{fill:none;stroke:#2e7d32;stroke-width:2;stroke-dasharray:6 4;stroke-linejoin:round}\
.epoch{stroke:#2e7d32;stroke-width:1;stroke-dasharray:1 3}.return{fill:#2e7d32}\
.reason{stroke:#d32f2f;stroke-width:3}.because{marker-end:url(#red-mark)}\
.ring{fill:none;stroke:#d32f2f;stroke-width:3}</style>\n<defs>";

const HATCHING: &[u8] =
    b"<pattern id=\"hatch\" width=\"6\" height=\"6\" patternUnits=\"userSpaceOnUse\" patternTransform=\"rotate(45)\">\
<line x1=\"0\" y1=\"0\" x2=\"0\" y2=\"6\" stroke=\"#dcae3c\" stroke-width=\"1.5\"/></pattern></defs>\n\
<rect width=\"100%\" height=\"100%\" fill=\"#fff\"/>\n";

/// How far the middle of an element's mark stands behind the tip of an arrow that ends at its edge.
const TO_MARK: u32 = 7;
/// The same for the dot of a step that makes no element.
const TO_DOT: u32 = 2;

/// The name of an arrow's head, its colour, and how far its tip stands in front of the arrow's end.
const HEADS: &[(&[u8], &[u8], u32)] = &[
    (b"blue", b"#1f5fa8", TO_DOT),
    (b"blue-mark", b"#1f5fa8", TO_MARK),
    (b"black", b"#222", TO_DOT),
    (b"black-mark", b"#222", TO_MARK),
    (b"pink", b"#c2185b", TO_DOT),
    (b"grey", b"#999", TO_DOT),
    (b"grey-mark", b"#999", TO_MARK),
    (b"red-mark", b"#d32f2f", TO_MARK),
];

/// The looks, and the white ground.
pub(crate) fn write_looks(pen: &mut Pen) {
    pen.text(STYLES);
    for (name, colour, before) in HEADS {
        head(pen, name, colour, *before);
    }
    pen.text(HATCHING);
}
