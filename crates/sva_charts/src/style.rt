//! The front of a picture: its size, what it shows, its colours on a light and on a dark page, the heads of its arrows.

/// All that stands before the first row. A reader that knows no media queries shows the light page.
const FRONT: &str =
    "<svg xmlns=\"http://www.w3.org/2000/svg\" viewBox=\"0 0 _ _\" width=\"_\" height=\"_\" role=\"img\"
  font-size=\"13\" font-family=\"ui-monospace, 'DejaVu Sans Mono', Menlo, Consolas, monospace\">
  <title>A run of _ steps, with _ messages</title>
  <desc>A row for each step, from top to bottom, with its answer. An arrow is a message, from its sending to its
    delivery.</desc>
  <style>
    .page { fill: #ffffff } .stripe { fill: #f3f5f7 }
    text { fill: #1f2328 } .faint { fill: #59636e } .refused { fill: #cf222e }
    .rail { stroke: #8c959f; stroke-width: 1; stroke-dasharray: 2 3; fill: none }
    .down { stroke: #0969da; marker-end: url(#down) } .up { stroke: #8250df; marker-end: url(#up) }
    .down, .up { stroke-width: 1.6; fill: none } .lost { stroke-dasharray: 6 4; marker-end: none }
    .of-down { fill: #0969da } .of-up { fill: #8250df; text-anchor: end }
    .late.of-down { text-anchor: end } .late.of-up { text-anchor: start }
    .dot { fill: #1f2328 } .cross { stroke: #cf222e; stroke-width: 2; fill: none }
    .head, .label { paint-order: stroke; stroke: #ffffff; stroke-width: 4px; stroke-linejoin: round }
    .head { font-weight: 600; text-anchor: middle } .label { font-size: 12px } .line { text-anchor: end }
    @media (prefers-color-scheme: dark) {
      .page { fill: #0d1117 } .stripe { fill: #161b22 }
      text { fill: #e6edf3 } .faint { fill: #9198a1 } .refused { fill: #ff7b72 }
      .rail { stroke: #6e7681 } .down { stroke: #58a6ff } .up { stroke: #bc8cff }
      .of-down { fill: #58a6ff } .of-up { fill: #bc8cff }
      .dot { fill: #e6edf3 } .cross { stroke: #ff7b72 } .head, .label { stroke: #0d1117 }
    }
  </style>
  <marker id=\"down\" viewBox=\"0 0 8 8\" refX=\"12\" refY=\"4\" markerWidth=\"8\" markerHeight=\"8\"
    markerUnits=\"userSpaceOnUse\" orient=\"auto\"><path class=\"of-down\" d=\"M0 0 8 4 0 8z\"/></marker>
  <marker id=\"up\" viewBox=\"0 0 8 8\" refX=\"12\" refY=\"4\" markerWidth=\"8\" markerHeight=\"8\"
    markerUnits=\"userSpaceOnUse\" orient=\"auto\"><path class=\"of-up\" d=\"M0 0 8 4 0 8z\"/></marker>
  <rect class=\"page\" width=\"100%\" height=\"100%\"/>
";

/// All that stands before the first row, with `_` for the width and the height, both again, the steps and the messages.
/// The text is long, and a body that names a constant has it written out in its proof: so this one alone does.
pub(crate) fn whole_front() -> &'static str {
    FRONT
}
