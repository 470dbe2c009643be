/// The look of a picture: colours that a colour-blind reader tells apart, light and dark.
pub const STYLE: &[u8] = b"\
    <style>\n\
    svg{background:#fff;font:11px ui-monospace,SFMono-Regular,Menlo,Consolas,\"DejaVu Sans Mono\",monospace}\n\
    text{fill:#1a1a1a;white-space:pre}\n\
    .g{fill:#fff}.z{fill:#000;fill-opacity:.035}.l{fill:#000;fill-opacity:.04}.v{stroke:#999}\n\
    .h{font-weight:bold;font-size:13px}.m,.s{fill:#5a5a5a}.n{fill:#707070;text-anchor:end}.w{fill:#a33f00;font-weight:bold}\n\
    .h,.m,.u{paint-order:stroke;stroke:#fff;stroke-width:3px;stroke-linejoin:round}\n\
    .t{fill:none;stroke:#707070;stroke-dasharray:3 4}\n\
    .b{fill:#fff;stroke:#777}.d{fill:#4a4a4a;stroke:#fff}.r:hover .b,.r:hover .d{stroke-width:2.5}\n\
    .k{fill:none;stroke:#1a1a1a;stroke-width:2}.x{fill:none;stroke:#c0182b;stroke-width:2}\n\
    .f{fill:#fdebec;stroke:#c0182b}.d.f{fill:#c0182b}\n\
    .run{fill:#56b4e9;fill-opacity:.3;stroke:#0072b2}.script{fill:#cc79a7;fill-opacity:.3;stroke:#a4487c}.deep{fill:none}\n\
    .wait{fill:url(#wait);stroke:#6b6b6b}.hatch{stroke:#6b6b6b;stroke-width:2}\n\
    .a{fill:none;stroke-width:1.6;stroke-linejoin:round}\n\
    .a0{stroke:#0072b2;marker-end:url(#m0)}.a1{stroke:#d55e00;marker-end:url(#m1);stroke-dasharray:7 3}\n\
    .a2{stroke:#009e73;marker-end:url(#m2);stroke-dasharray:2 2.5}\n\
    .a3{stroke:#a4487c;marker-end:url(#m3);stroke-dasharray:9 3 2 3}\n\
    .a4{stroke:#8a6400;marker-end:url(#m4);stroke-dasharray:14 4}\n\
    .a5{stroke:#d55e00;marker-end:url(#m1);stroke-dasharray:2 3 8 3}\n\
    .a6{stroke:#009e73;marker-end:url(#m2);stroke-dasharray:12 2.5 2 2.5}\n\
    .a7{stroke:#a4487c;marker-end:url(#m3);stroke-dasharray:4 2}\n\
    .a8{stroke:#8a6400;marker-end:url(#m4);stroke-dasharray:2 4}\n\
    .a9{stroke:#0072b2;marker-end:url(#m0);stroke-dasharray:10 4 2 4}\n\
    .a10{stroke:#0072b2;marker-end:url(#m0);stroke-dasharray:1 3}\n\
    .e0{fill:#0072b2}.e1{fill:#d55e00}.e2{fill:#009e73}.e3{fill:#a4487c}.e4{fill:#8a6400}\n\
    @media(prefers-color-scheme:dark){\n\
    svg{background:#121212}text{fill:#eee}.g{fill:#121212}.z{fill:#fff;fill-opacity:.045}.l{fill:#fff;fill-opacity:.05}\n\
    .v{stroke:#666}\n\
    .m,.s{fill:#b5b5b5}.n{fill:#9a9a9a}.w{fill:#f0e442}.h,.m,.u{stroke:#121212}\n\
    .t{stroke:#9a9a9a}.b{fill:#1e1e1e;stroke:#8f8f8f}.d{fill:#d0d0d0;stroke:#121212}.k{stroke:#eee}\n\
    .f{fill:#3d2026;stroke:#ff7b86}.d.f{fill:#ff7b86}.x{stroke:#ff7b86}\n\
    .run{stroke:#56b4e9}.script{stroke:#cc79a7}.wait,.hatch{stroke:#aaa}\n\
    .a0{stroke:#56b4e9}.a1{stroke:#ff8a3d}.a2{stroke:#2fc79a}.a3{stroke:#e59ac4}.a4{stroke:#e69f00}\n\
    .a5{stroke:#ff8a3d}.a6{stroke:#2fc79a}.a7{stroke:#e59ac4}.a8{stroke:#e69f00}\n\
    .a9,.a10{stroke:#56b4e9}\n\
    .e0{fill:#56b4e9}.e1{fill:#ff8a3d}.e2{fill:#2fc79a}.e3{fill:#e59ac4}.e4{fill:#e69f00}\n\
    }\n\
    </style>\n\
";

/// The heads of arrows by their colours, the hatching of waits, and the shade of every second row.
pub const DEFS: &[u8] = b"\
    <defs>\n\
    <marker id=\"m0\" viewBox=\"0 0 8 8\" refX=\"7\" refY=\"4\" markerWidth=\"5\" markerHeight=\"5\" orient=\"auto\">\n\
    <path class=\"e0\" d=\"M0 0L8 4L0 8z\"/></marker>\n\
    <marker id=\"m1\" viewBox=\"0 0 8 8\" refX=\"7\" refY=\"4\" markerWidth=\"5\" markerHeight=\"5\" orient=\"auto\">\n\
    <path class=\"e1\" d=\"M0 0L8 4L0 8z\"/></marker>\n\
    <marker id=\"m2\" viewBox=\"0 0 8 8\" refX=\"7\" refY=\"4\" markerWidth=\"5\" markerHeight=\"5\" orient=\"auto\">\n\
    <path class=\"e2\" d=\"M0 0L8 4L0 8z\"/></marker>\n\
    <marker id=\"m3\" viewBox=\"0 0 8 8\" refX=\"7\" refY=\"4\" markerWidth=\"5\" markerHeight=\"5\" orient=\"auto\">\n\
    <path class=\"e3\" d=\"M0 0L8 4L0 8z\"/></marker>\n\
    <marker id=\"m4\" viewBox=\"0 0 8 8\" refX=\"7\" refY=\"4\" markerWidth=\"5\" markerHeight=\"5\" orient=\"auto\">\n\
    <path class=\"e4\" d=\"M0 0L8 4L0 8z\"/></marker>\n\
    <pattern id=\"wait\" width=\"5\" height=\"5\" patternUnits=\"userSpaceOnUse\" patternTransform=\"rotate(45)\">\n\
    <path class=\"hatch\" d=\"M1 0V5\"/>\n\
    </pattern>\n\
    <pattern id=\"zebra\" width=\"44\" height=\"44\" patternUnits=\"userSpaceOnUse\">\n\
    <rect class=\"z\" width=\"44\" height=\"22\"/>\n\
    </pattern>\n\
    </defs>\n\
";
