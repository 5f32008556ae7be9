//! The part of a picture that is always the same: its style, and the heads of its arrows.
ghost use Rattle.std.specs.Prelude.{◌≡◌};
ghost use Rattle.raw_io.specs.Writing.{Writes};
ghost use Rattle.raw_picture.specs.Style.{colours, dark_colours, markers, style};

use raw_io::{Failed, Sink, put_each};

// Puts how things look on a light ground.
#[tactic(auto, unfolding(crate::specs::Style::colours))]
fn put_colours<K: Sink>(out: &mut K) -> Result<(), Failed>
    ensures { Writes (K.sight out.old) (K.sight out.new) colours result }
{
    put_each(
        out,
        &[
            b"<style>\n",
            b"text{font:11px Menlo,Consolas,\"DejaVu Sans Mono\",\"Liberation Mono\",monospace;fill:#1b2530}\n",
            b".page{fill:#ffffff} .cell{fill:#f3f5f7} .link{fill:#e6eaee}\n",
            b".box{fill:#ffffff;stroke:#788390;stroke-width:1}\n",
            b".waits{fill:#fff3cf;stroke:#8a7330}\n",
            b".trapped{fill:#f6dcec;stroke:#98306f;stroke-width:3}\n",
            b".limit{fill:#d8ebfa;stroke:#22689f;stroke-width:2;stroke-dasharray:10 4}\n",
            b".empty{fill:#f3f5f7;stroke-dasharray:2 3}\n",
            b".on{stroke:#c04300;stroke-width:3;stroke-dasharray:none}\n",
            b".name{font-weight:bold;font-size:13px} .mark{font-weight:bold} .soft{fill:#5c6773}\n",
            b".head{font-weight:bold;font-size:22px} .say{font-size:12px}\n",
            b".end{text-anchor:end} .mid{text-anchor:middle}\n",
            b".n1,.n2,.thin,.wait,.path{fill:none;stroke-width:2}\n",
            b".n1{stroke:#0063a3;marker-end:url(#a1)}\n",
            b".n2{stroke:#00735a;stroke-dasharray:5 3;marker-end:url(#a2)}\n",
            b".thin{stroke:#5c6773;stroke-width:1;marker-end:url(#a3)}\n",
            b".wait{stroke:#c04300;marker-end:url(#a4)}\n",
            b".path{stroke:#f7cdb4;stroke-width:9;stroke-linejoin:round}\n",
            b".f1,.t1{fill:#0063a3} .f2,.t2{fill:#00735a} .f3{fill:#5c6773} .f4,.tag{fill:#c04300}\n",
            b".t1,.t2{font-weight:bold} .tagged{fill:#ffffff}\n",
        ],
    )
}

// Puts how they look on a dark ground.
#[tactic(auto, unfolding(crate::specs::Style::dark_colours))]
fn put_dark_colours<K: Sink>(out: &mut K) -> Result<(), Failed>
    ensures { Writes (K.sight out.old) (K.sight out.new) dark_colours result }
{
    put_each(
        out,
        &[
            b"@media (prefers-color-scheme:dark){\n",
            b"text{fill:#e3e8ee}\n",
            b".page{fill:#12161b} .cell{fill:#1a2027} .link{fill:#262e38}\n",
            b".box{fill:#12161b;stroke:#6d7986}\n",
            b".waits{fill:#383011;stroke:#b79a46}\n",
            b".trapped{fill:#421c35;stroke:#e58cc2}\n",
            b".limit{fill:#12324c;stroke:#6db3ea}\n",
            b".empty{fill:#1a2027} .on{stroke:#ff8b45} .soft{fill:#9aa6b2}\n",
            b".n1{stroke:#6db9f2} .n2{stroke:#52cba3} .thin{stroke:#9aa6b2}\n",
            b".wait{stroke:#ff8b45} .path{stroke:#6b3a1c}\n",
            b".f1,.t1{fill:#6db9f2} .f2,.t2{fill:#52cba3} .f3{fill:#9aa6b2} .f4,.tag{fill:#ff8b45}\n",
            b".tagged{fill:#12161b}\n",
            b"}\n",
            b"</style>\n",
        ],
    )
}

// Puts the heads of the arrows of network 1, of network 2, of other waits, of told waits.
#[tactic(auto, unfolding(crate::specs::Style::markers))]
fn put_markers<K: Sink>(out: &mut K) -> Result<(), Failed>
    ensures { Writes (K.sight out.old) (K.sight out.new) markers result }
{
    put_each(
        out,
        &[
            b"<defs>\n",
            b"<marker id=\"a1\" markerUnits=\"userSpaceOnUse\" markerWidth=\"10\" markerHeight=\"10\" refX=\"2\" refY=\"5\" orient=\"auto\"><path class=\"f1\" d=\"M1 1L9 5L1 9z\"/></marker>\n",
            b"<marker id=\"a2\" markerUnits=\"userSpaceOnUse\" markerWidth=\"10\" markerHeight=\"10\" refX=\"2\" refY=\"5\" orient=\"auto\"><path class=\"f2\" d=\"M1 1L9 5L1 9z\"/></marker>\n",
            b"<marker id=\"a3\" markerUnits=\"userSpaceOnUse\" markerWidth=\"10\" markerHeight=\"10\" refX=\"2\" refY=\"5\" orient=\"auto\"><path class=\"f3\" d=\"M1 2L9 5L1 8z\"/></marker>\n",
            b"<marker id=\"a4\" markerUnits=\"userSpaceOnUse\" markerWidth=\"10\" markerHeight=\"10\" refX=\"2\" refY=\"5\" orient=\"auto\"><path class=\"f4\" d=\"M1 0L9 5L1 10z\"/></marker>\n",
            b"</defs>\n",
        ],
    )
}

/// Puts the style and the heads of the arrows.
#[tactic(auto, unfolding(crate::specs::Style::style), using(raw_io::proofs::Chains::chained))]
pub(crate) fn put_style<K: Sink>(out: &mut K) -> Result<(), Failed>
    ensures { Writes (K.sight out.old) (K.sight out.new) style result }
{
    put_colours(out)?;
    put_dark_colours(out)?;
    put_markers(out)
}
