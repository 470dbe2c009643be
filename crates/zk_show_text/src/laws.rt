ghost use Rattle.std.specs.Prelude.{◌+◌, ◌≤◌, List, length};
ghost use Rattle.zk_line.specs.declared.types.Decl.{Decl};
ghost use Rattle.zk_show_chart.specs.declared.chart.Bar.{Bar};
ghost use Rattle.zk_show_chart.specs.declared.chart.Row.{Row};
ghost use Rattle.zk_show_text.specs.declared.layout.Layout.{Layout};
ghost use Rattle.zk_show_text.specs.Line.{width};
ghost use Rattle.zk_show_text.specs.Rows.{row_line};

/// No line of a row has more than 120 characters, beside its line feed.
pub fn rows_fit()
    ensures { (decls : List Decl) (l : Layout) (bars : List Bar) (row : Row) → length (row_line decls l bars row) ≤ width + 1 }
{}
